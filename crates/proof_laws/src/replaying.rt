// A law of lists of lines, each legal where it stands.
ghost use Rattle.proof_laws.specs.Laws.{ReplaysGoOn};

/// Law: lines reach one state at most, and with a line more the next one; the state counts them, and
/// its next id comes after those of the rows and of the constraints that the lines have made.
pub fn replays_go_on()
    ensures { ReplaysGoOn }
{}
