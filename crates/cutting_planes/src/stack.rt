// A stack of constraints.
ghost use Rattle.std.specs.Prelude.{◌≡◌, ◌⊎◌, [], ◌∷◌, Err, MatchOption, OnOk, OnErr};
ghost use Rattle.cutting_planes.specs.Stack.{final_answer};

use crate::PolFault;
use crate::operand::Operand;
use pb_lin::Constraint;
use scut_base::NoMemory;
use std::alloc::Global;
use std::marker::Model;

// The constraints that are worked on. Contracts see the topmost, the last of the `Vec`, first.
#[derive(Debug, Drop)]
pub(crate) struct ConstraintStack<'a> {
    constraints: Vec<Operand<'a>>,
}

impl<'a> Model for ConstraintStack<'a> {
    ghost use Rattle.std.specs.Prelude.{List, reverse};
    ghost use Rattle.pb_lin.specs.Constraint.{ConstraintValue};

    ghost Value = { List ConstraintValue };

    ghost view = { λ s. reverse s.constraints.items };
}

impl<'a> ConstraintStack<'a> {
    pub(crate) fn new(alloc: Global) -> ConstraintStack<'a>
        ensures { result ≡ [] }
    {
        ConstraintStack {
            constraints: Vec::new(alloc),
        }
    }

    pub(crate) fn push(&mut self, c: Operand<'a>) -> Result<(), NoMemory>
        ensures ok { OnOk result (self.new ≡ c.entry ∷ self.old) }
        ensures err { OnErr result (self.new ≡ self.old) }
    {
        self.constraints.push(c)?;
        Ok(())
    }

    pub(crate) fn pop(&mut self) -> Option<Operand<'a>>
        ensures { MatchOption result ((self.old ≡ []) × (self.new ≡ []))
            (λ c. self.old ≡ c ∷ self.new) }
    {
        self.constraints.pop()
    }

    // The number of the topmost's terms, and 0 where the stack is empty.
    pub(crate) fn top_len(&self) -> usize {
        match self.constraints.last() {
            Some(c) => c.len(),
            None => 0,
        }
    }

    // What is left, if it is one constraint.
    pub(crate) fn into_answer(mut self, alloc: Global) -> Result<Constraint, PolFault>
        ensures { (result ≡ Err PolFault.NoMemory) ⊎ (result ≡ final_answer self.entry) }
    {
        match self.pop() {
            Some(c) if self.constraints.is_empty() => Ok(c.to_constraint(alloc)?),
            _ => Err(PolFault::Stack),
        }
    }
}
