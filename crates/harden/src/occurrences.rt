// Where the literals of a problem occur, and which of them may as well be false.
ghost use Rattle.std.specs.Prelude.{◌≡◌, ◌<◌, ◌≤◌, IfOk};
ghost use Rattle.pb_lin.specs.Problem.{IsProblem};
ghost use Rattle.harden.specs.Hardened.{first_fixed, is_fixed};
ghost use Rattle.harden.specs.Noted.{occurrence_in};

use crate::noting::noted;
use crate::occurrence::Occurrence;
use clause_prop::literal_code;
use pb_lin::PbProblem;
use scut_base::{Lit, NoMemory};
use std::alloc::Global;
use std::marker::Model;

// A problem, with where each of its literals occurs, by the literal's code. Contracts see the problem.
#[derive(Drop)]
pub(crate) struct Occurrences<'a> {
    problem: &'a PbProblem,
    table: Vec<Occurrence>,
}

impl<'a> Model for Occurrences<'a> {
    ghost use Rattle.pb_lin.specs.Problem.{ProblemValue};
    ghost use Rattle.harden.specs.Noted.{AreNoted};

    ghost Value = { ProblemValue };

    ghost view = { λ o. o.problem.now };

    ghost invariant = { λ o. AreNoted o.problem.now o.table.items };
}

impl<'a> Occurrences<'a> {
    // Takes one pass over rows and objectives, and a place for each literal.
    pub(crate) fn of(alloc: Global, problem: &'a PbProblem) -> Result<Occurrences<'a>, NoMemory>
        ensures { IfOk result (λ o. o ≡ problem.now) }
    {
        let table = noted(alloc, problem)?;
        Ok(Occurrences { problem, table })
    }

    // The number of variables.
    pub(crate) fn vars(&self) -> u64
        ensures value { result ≡ self.now.vars }
        ensures problem { IsProblem self.now }
    {
        self.problem.vars()
    }

    // Where a literal occurs.
    pub(crate) fn at(&self, lit: Lit) -> &Occurrence
        requires { lit.var ≤ self.now.vars }
        ensures { result.now ≡ occurrence_in self.now.rows self.now.costs lit }
    {
        &self.table[literal_code(lit)]
    }

    // Whether a literal is made false: no row wants it to be true, no objective minds that it is false, and
    // it costs something or a row wants it to be false.
    fn is_fixed(&self, lit: Lit) -> bool
        requires { lit.var ≤ self.now.vars }
        ensures { result ≡ is_fixed self.now lit }
    {
        let here = self.at(lit);
        let other = self.at(lit.not());
        !here.in_rows && !other.in_costs && (here.in_costs || other.in_rows)
    }

    // The literal of a variable that is made false, if one is: the positive one goes first.
    pub(crate) fn first_fixed(&self, var: u64) -> Option<Lit>
        requires from_one { 0 < var }
        requires upto { var ≤ self.now.vars }
        ensures { result ≡ first_fixed self.now var }
    {
        let _vars = self.vars();
        let positive = Lit::new(var, false);
        if self.is_fixed(positive) {
            return Some(positive);
        }
        let negative = positive.not();
        if self.is_fixed(negative) {
            return Some(negative);
        }
        None
    }
}
