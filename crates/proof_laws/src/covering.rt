// Laws of covering: no legal line loses a compromise, whoever wrote it.
ghost use Rattle.proof_laws.specs.Laws.{StartIsSound, NextFits, NextCovers, ReplaysAreSound, EndedIsEmpty};

/// Law: a proof begins with a state that fits the problem, and with every model covered, by itself.
pub fn start_covers()
    ensures { StartIsSound }
{}

/// Law: after a legal line there is a state again, and it fits the problem.
pub fn next_fits()
    ensures { NextFits }
{}

/// Law: a legal line of any kind keeps every model covered.
pub fn next_covers()
    ensures { NextCovers }
{}

/// Law: the state that legal lines reach fits the problem, and covers every model.
pub fn replay_covers()
    ensures { ReplaysAreSound }
{}

/// Law: nothing satisfies a state that has ended. So every model's costs then have a logged vector
/// below them.
pub fn ended_is_empty()
    ensures { EndedIsEmpty }
{}
