// Numbers that are drawn one after another.
ghost use Rattle.std.specs.Prelude.{◌≡◌, ◌<◌};
ghost use Rattle.command_gen.specs.Draws.{beginning, below, next_state};

use std::marker::Model;

// A linear congruential generator modulo 2^32, of which the upper 16 bits are used (multiplier and increment: Press and
// others, Numerical Recipes).
#[derive(Drop)]
pub(crate) struct Draws {
    state: u32,
}

impl Model for Draws {
    ghost use Rattle.std.specs.Prelude.{ℕ};

    ghost Value = { ℕ };

    ghost view = { λ d. d.state };
}

impl Draws {
    // Those that a number begins.
    pub(crate) fn new(number: u64) -> Draws
        ensures { result ≡ beginning number }
    {
        Draws {
            state: (number % (1 << 32)) as u32,
        }
    }

    // The next one below n.
    pub(crate) fn below(&mut self, n: u32) -> u32
        requires { 0 < n }
        ensures state { self.new ≡ next_state self.old }
        ensures drawn { result ≡ below n self.new }
        ensures within { result < n }
    {
        let next = (1664525 * u64::from(self.state) + 1013904223) % (1 << 32);
        self.state = next as u32;
        self.state / 65536 % n
    }
}
