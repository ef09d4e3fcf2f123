// When the search begins at the assumptions again, and in which of two modes it is: focused, by averages of glue
// (Biere and Froehlich 2015), or stable, by Luby's sequence in Knuth's form (Luby, Sinclair and Zuckerman 1993). Modes
// in turns: Biere and Fleury 2020.

use crate::limits::{
    FAST_SHARE, FIRST_FOCUSED, LEAST_BETWEEN_RESTARTS, LUBY_UNIT, PLAIN_MEAN, RESTART_ABOVE,
    SLOW_SHARE,
};

#[derive(Clone, Copy, Debug)]
pub(crate) struct Restarts {
    fast: f64,
    slow: f64,
    // Conflicts since the last restart.
    since: u64,
    // Knuth's pair of numbers, and the conflicts that are left of this stretch.
    first: u64,
    second: u64,
    left: u64,
    // Whether the mode is stable.
    pub(crate) is_stable: bool,
    switches: u64,
    // When the question began, in conflicts, and the mode, in ticks.
    began: u64,
    mode_began: u64,
    // How many ticks the first stretch took, and when this one ends.
    stretch: u64,
    mode_ends: u64,
}

impl Restarts {
    pub(crate) fn new() -> Restarts {
        Restarts {
            fast: 0.0,
            slow: 0.0,
            since: 0,
            first: 1,
            second: 1,
            left: LUBY_UNIT,
            is_stable: false,
            switches: 0,
            began: 0,
            mode_began: 0,
            stretch: 0,
            mode_ends: 0,
        }
    }

    // A question begins.
    pub(crate) fn begin(&mut self, conflicts: u64, ticks: u64) {
        self.is_stable = false;
        self.switches = 0;
        self.began = conflicts;
        self.mode_began = ticks;
    }

    // A conflict came.
    pub(crate) fn note_conflict(&mut self) {
        self.since = self.since.saturating_add(1);
        if self.is_stable {
            self.left = self.left.saturating_sub(1);
        }
    }

    // A clause of this glue was learned, of so many in all.
    pub(crate) fn note_glue(&mut self, glue: u32, conflicts: u64) {
        let glue = f64::from(glue);
        self.fast += FAST_SHARE * (glue - self.fast);
        self.slow += SLOW_SHARE * (glue - self.slow);
        if conflicts < PLAIN_MEAN {
            self.slow += (glue - self.slow) / (conflicts as f64 + 1.0);
        }
    }

    // Whether it's time for a restart.
    pub(crate) fn is_due(&self) -> bool {
        if self.is_stable {
            self.left == 0
        } else {
            self.since >= LEAST_BETWEEN_RESTARTS && self.fast > RESTART_ABOVE * self.slow
        }
    }

    // A restart comes.
    pub(crate) fn note_restart(&mut self) {
        self.since = 0;
        if self.is_stable {
            self.next_stretch();
        }
    }

    fn next_stretch(&mut self) {
        if self.first & self.first.wrapping_neg() == self.second {
            self.first = self.first.wrapping_add(1);
            self.second = 1;
        } else {
            self.second = self.second.saturating_mul(2);
        }
        self.left = self.second.saturating_mul(LUBY_UNIT);
    }

    // Whether it's time for the other mode.
    pub(crate) fn is_switch_due(&self, conflicts: u64, ticks: u64) -> bool {
        if self.switches == 0 {
            conflicts.saturating_sub(self.began) >= FIRST_FOCUSED
        } else {
            ticks >= self.mode_ends
        }
    }

    // The other mode begins. The stretches of each are as the squares, times that of the first.
    pub(crate) fn switch(&mut self, ticks: u64) {
        self.switches = self.switches.saturating_add(1);
        self.is_stable = !self.is_stable;
        if self.switches == 1 {
            self.stretch = ticks.saturating_sub(self.mode_began);
        }
        self.mode_began = ticks;
        let turn = self.switches.saturating_add(1) / 2;
        let length = self.stretch.saturating_mul(turn.saturating_mul(turn));
        self.mode_ends = ticks.saturating_add(length);
        self.first = 1;
        self.second = 1;
        self.left = LUBY_UNIT;
        self.fast = self.slow;
    }
}
