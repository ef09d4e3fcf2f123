// Which derived clauses an answer stands on: found from the end backwards (Goldberg and Novikov 2003).
//
// Nothing is derived of a literal that is implied at level 0 until a clause that is needed stands on it: then its unit
// clause gets a record, which stands on the reasons before it, back to units that have a record. So long chains of
// implied literals become one line of many hints.

use crate::engine::{Closing, Engine};
use crate::records::{Hint, is_marked, mark};
use crate::trail::Reason;
use scut_base::NoMemory;

// What is sought, and was found.
#[derive(Debug, Drop)]
struct Sought {
    todo: Vec<Hint>,
    has_record: Vec<bool>,
    has_root: Vec<bool>,
    is_mentioned: Vec<bool>,
    records: Vec<u32>,
    // The variables of level 0 whose units clauses stand on.
    mentioned: Vec<(u32, u32)>,
}

impl Engine {
    // The records that the answer stands on and that have no line, as `Engine::needed` says.
    pub(crate) fn records_needed(&mut self) -> Result<Vec<u32>, NoMemory> {
        self.forget_unwritten_units();
        let mut sought = Sought {
            todo: Vec::new(self.alloc),
            has_record: vec![in self.alloc; false; self.records.len()]?,
            has_root: vec![in self.alloc; false; self.units.len()]?,
            is_mentioned: vec![in self.alloc; false; self.units.len()]?,
            records: Vec::new(self.alloc),
            mentioned: Vec::new(self.alloc),
        };
        match self.closing {
            Closing::Open => {}
            Closing::Record(record) => sought.todo.push(Hint::Record(record))?,
            Closing::Root(var) => self.mention(&mut sought, var)?,
        }
        for _step in 0..usize::MAX {
            match sought.todo.pop() {
                Some(Hint::Record(record)) => self.seek_record(&mut sought, record)?,
                Some(Hint::Root(var)) => self.seek_root(&mut sought, var)?,
                None => break,
            }
        }
        sought.records.sort_unstable();
        sought.mentioned.sort_unstable();
        self.in_order(&sought)
    }

    // Units that got a record for an answer whose lines weren't written.
    fn forget_unwritten_units(&mut self) {
        for var in self.lazy_units.iter() {
            if let Some(unit) = self.units.get_mut(*var as usize) {
                if self.records.line(*unit) == 0 {
                    *unit = 0;
                }
            }
        }
        self.lazy_units.clear();
    }

    fn seek_record(&mut self, sought: &mut Sought, record: u32) -> Result<(), NoMemory> {
        if self.records.line(record) != 0
            || is_marked(sought.has_record.as_slice(), record as usize)
        {
            return Ok(());
        }
        mark(sought.has_record.as_mut_slice(), record);
        sought.records.push(record)?;
        let hints = self.records.hints(record)?;
        for hint in hints.iter() {
            match hint {
                Hint::Record(_) => sought.todo.push(*hint)?,
                Hint::Root(var) => self.mention(sought, *var)?,
            }
        }
        Ok(())
    }

    // A clause stands on the unit of a variable.
    fn mention(&mut self, sought: &mut Sought, var: u32) -> Result<(), NoMemory> {
        if is_marked(sought.is_mentioned.as_slice(), var as usize) {
            return Ok(());
        }
        mark(sought.is_mentioned.as_mut_slice(), var);
        sought.todo.push(Hint::Root(var))?;
        let place = self.trail.step(var).place;
        sought.mentioned.push((place, var))?;
        Ok(())
    }

    // What the unit of a variable stands on.
    fn seek_root(&mut self, sought: &mut Sought, var: u32) -> Result<(), NoMemory> {
        if is_marked(sought.has_root.as_slice(), var as usize) {
            return Ok(());
        }
        mark(sought.has_root.as_mut_slice(), var);
        let unit = self.unit(var);
        if unit != 0 {
            sought.todo.push(Hint::Record(unit))?;
            return Ok(());
        }
        let record = self.record_of(self.trail.step(var).reason);
        sought.todo.push(Hint::Record(record))?;
        self.take_antecedents_of(var)?;
        for lit in self.work.antecedents.iter() {
            sought.todo.push(Hint::Root(lit.var()))?;
        }
        Ok(())
    }

    // The record of the unit of a variable; 0 where it has none.
    pub(crate) fn unit(&self, var: u32) -> u32 {
        self.units.get(var as usize).copied().unwrap_or(0)
    }

    // The records in the order in which they can be written: a unit comes before what was derived after its literal
    // was implied.
    fn in_order(&mut self, sought: &Sought) -> Result<Vec<u32>, NoMemory> {
        let mut order = Vec::new(self.alloc);
        let mut next = 0usize;
        for (place, var) in sought.mentioned.iter() {
            let later = self.first_later(sought.records.as_slice(), next, *place);
            if let Some(records) = sought.records.as_slice().get(next..later) {
                order.extend_from_slice(records)?;
            }
            next = later;
            if self.unit(*var) == 0 {
                order.push(self.derive_unit(*var)?)?;
            }
        }
        if let Some(records) = sought.records.as_slice().get(next..) {
            order.extend_from_slice(records)?;
        }
        Ok(order)
    }

    // The first record from one on that was derived when a place of level 0 was filled.
    fn first_later(&self, records: &[u32], from: usize, place: u32) -> usize {
        for at in from..records.len() {
            if let Some(record) = records.get(at) {
                if self.records.roots(*record) > place {
                    return at;
                }
            }
        }
        records.len()
    }

    // Derives the unit of a variable that is implied at level 0.
    fn derive_unit(&mut self, var: u32) -> Result<u32, NoMemory> {
        self.work.begin();
        self.work.stack.push(var)?;
        for _step in 0..usize::MAX {
            let Some(next) = self.work.stack.pop() else {
                break;
            };
            self.take_root_hint(next)?;
        }
        self.work.roots.clear();
        self.work.make_hints(None)?;
        let lit = self.trail.true_literal(var);
        let roots = self.trail.step(var).place as usize;
        let record = self
            .records
            .derive(&[lit], self.work.hints.as_slice(), roots)?;
        if let Some(unit) = self.units.get_mut(var as usize) {
            *unit = record;
        }
        self.lazy_units.push(var)?;
        Ok(record)
    }

    // Takes the record of a variable's unit as a hint, or else of its reason, with what that stands on.
    fn take_root_hint(&mut self, var: u32) -> Result<(), NoMemory> {
        if self.work.mark(var).has_hints {
            return Ok(());
        }
        self.work.need_root(var)?;
        let step = self.trail.step(var);
        let unit = self.unit(var);
        if unit != 0 {
            return Ok(self.work.chain.push((step.place, unit))?);
        }
        let record = self.record_of(step.reason);
        self.work.chain.push((step.place, record))?;
        if step.reason != Reason::Decided {
            self.take_antecedents_of(var)?;
            for lit in self.work.antecedents.iter() {
                self.work.stack.push(lit.var())?;
            }
        }
        Ok(())
    }
}
