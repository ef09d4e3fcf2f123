// Eliminated variables that are named again.

use crate::aside::Role;
use crate::engine::Engine;
use crate::literals::Literal;
use scut_base::NoMemory;

impl Engine {
    // The variables of these literals are not to be eliminated: rows, assumptions or clauses to come name them. Where
    // one was, all clauses come back that are aside. Its own ones wouldn't do: they may have variables that were
    // eliminated later. Nothing else is to be undone, since resolvents follow from the clauses that come back.
    pub(crate) fn freeze(&mut self, literals: &[Literal]) -> Result<(), NoMemory> {
        if self.aside.has_eliminated(literals) {
            self.restore()?;
        }
        for lit in literals {
            self.aside.set_role(lit.var(), Role::Frozen);
        }
        Ok(())
    }

    // Brings all clauses back that are aside. Nothing is eliminated any more then: the resolvents stay, and would come
    // once more each time.
    pub(crate) fn restore(&mut self) -> Result<(), NoMemory> {
        self.backtrack(0)?;
        for number in 0..self.aside.len() {
            self.restore_clause(number)?;
        }
        self.aside.clear();
        self.rounds.end();
        for var in 1..self.vars.saturating_add(1) {
            if self.aside.is_eliminated(var) {
                self.aside.set_role(var, Role::Inner);
                self.queue.enter(var);
                self.heap.put(var)?;
            }
        }
        Ok(())
    }

    fn restore_clause(&mut self, number: usize) -> Result<(), NoMemory> {
        let (literals, record) = self.aside.clause(number);
        if record == 0 || self.has_true(literals) {
            return Ok(());
        }
        let mut literals = Vec::from_slice(self.alloc, literals)?;
        self.put_clause(literals.as_mut_slice(), record)
    }
}
