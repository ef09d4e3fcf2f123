// Laws of judging: what each line comes to.
ghost use Rattle.proof_laws.specs.Laws.{LinesAreJudged, LinesAreJudgedOnce};

/// Law: a line is refused for some reason, or has a next state.
pub fn line_is_judged()
    ensures { LinesAreJudged }
{}

/// Law: a line is refused for one reason at most, or has one next state at most, and never both.
pub fn line_is_judged_once()
    ensures { LinesAreJudgedOnce }
{}
