// A law of what a proof has earned.
ghost use Rattle.proof_laws.specs.Laws.{PlainLineKeepsEarned};

/// Law: a line that neither learns nor deletes keeps what a proof has earned.
pub fn plain_line_keeps_earned()
    ensures { PlainLineKeepsEarned }
{}
