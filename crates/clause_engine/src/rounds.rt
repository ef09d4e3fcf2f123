// When rounds of elimination come, and how much they may cost.

use crate::limits::{ELIMINATE_EVERY, ELIMINATION_PART, FREE_TICKS, GROWTHS};

#[derive(Clone, Copy, Debug)]
pub(crate) struct Rounds {
    // How many rounds came to their end.
    ended: usize,
    // At so many conflicts it's time to see whether there is another one.
    next: u64,
    // The ticks that all took.
    spent: u64,
}

impl Rounds {
    pub(crate) fn new() -> Rounds {
        Rounds {
            ended: 0,
            next: 0,
            spent: 0,
        }
    }

    // Whether it's time to see if there is a round.
    pub(crate) fn is_due(&self, conflicts: u64) -> bool {
        conflicts >= self.next
    }

    // By how many the clauses of a variable may become more; none where there is no round more.
    pub(crate) fn growth(&self) -> Option<usize> {
        GROWTHS.get(self.ended).copied()
    }

    // How many ticks a round may take after so many in all.
    pub(crate) fn room(&self, ticks: u64) -> u64 {
        let most = FREE_TICKS.saturating_add(ticks / ELIMINATION_PART);
        most.saturating_sub(self.spent)
    }

    // There was no round, or it ran out of ticks.
    pub(crate) fn wait(&mut self, conflicts: u64) {
        self.next = conflicts.saturating_add(ELIMINATE_EVERY);
    }

    // A round came to its end.
    pub(crate) fn note_end(&mut self) {
        self.ended = self.ended.saturating_add(1);
    }

    // A round took so many ticks.
    pub(crate) fn note_ticks(&mut self, ticks: u64) {
        self.spent = self.spent.saturating_add(ticks);
    }

    // There are to be none more.
    pub(crate) fn end(&mut self) {
        self.ended = GROWTHS.len();
    }
}
