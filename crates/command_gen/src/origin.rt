// What an instance is made from.
ghost use Rattle.std.specs.Prelude.{◌≡◌, ◌<◌, ◌≤◌, ◌^◌, length, IfOk};
ghost use Rattle.std.specs.Option.{ForSome};
ghost use Rattle.command_gen.specs.Printed.{AllOccur, IsPlain, mcnf_text};
ghost use Rattle.command_gen.specs.Origin.{instance_from, number_within, origin_of};

use crate::making::make;
use instance::Instance;
use scut_base::{NoMemory, read_u64};
use std::alloc::Global;
use std::marker::Model;

// How many items and objectives an instance may have that is made.
const LEAST_VARS: u64 = 3;

const MOST_VARS: u64 = 4096;

const MOST_OBJECTIVES: u64 = 64;

/// What an instance is made from: a number, from 3 to 4096 items, and from 1 to 64 objectives.
#[derive(Clone, Copy, Debug)]
pub struct Origin {
    number: u64,
    vars: u32,
    objectives: u32,
}

impl Model for Origin {
    ghost use Rattle.command_gen.specs.Origin.{OriginValue, IsOrigin};

    ghost Value = { OriginValue };

    ghost view = { λ o. record { number = o.number; vars = o.vars; objectives = o.objectives } };

    ghost invariant = { λ o. IsOrigin (record { number = o.number; vars = o.vars; objectives = o.objectives }) };

    ghost inverse = { λ o. record { number = o.number; vars = o.vars; objectives = o.objectives } };
}

impl Origin {
    /// That of these words; `None` exactly where one of them isn't its number. Leading zeros are taken, signs aren't.
    pub fn read(number: &str, vars: &str, objectives: &str) -> Option<Origin>
        ensures { result ≡ origin_of number.now vars.now objectives.now }
    {
        let number = number_within(0, u64::MAX, number)?;
        let vars = number_within(LEAST_VARS, MOST_VARS, vars)?;
        let objectives = number_within(1, MOST_OBJECTIVES, objectives)?;
        Some(Origin {
            number,
            vars: vars as u32,
            objectives: objectives as u32,
        })
    }

    /// The instance that is made from it.
    pub fn instance(&self, alloc: Global) -> Result<Instance, NoMemory>
        ensures instance { IfOk result (λ i. i ≡ instance_from self.now) }
        ensures occur { IfOk result AllOccur }
        ensures plain { IfOk result IsPlain }
        ensures short { IfOk result (λ i. length (mcnf_text i) < 2 ^ 32) }
    {
        make(alloc, self.number, self.vars, self.objectives)
    }
}

// A number from low to high.
fn number_within(low: u64, high: u64, text: &str) -> Option<u64>
    ensures number { result ≡ number_within low high text.now }
    ensures within { ForSome result (λ n. (low ≤ n) × (n ≤ high)) }
{
    match read_u64(text.as_bytes()) {
        Ok(number) => {
            if low <= number && number <= high {
                return Some(number);
            }
            None
        }
        Err(_) => None,
    }
}
