// The new ids of lines that are kept.
ghost use Rattle.std.specs.Prelude.{◌≡◌, ◌≤◌, ◌^◌, [], nat_eq, OnOk};
ghost use Rattle.std.specs.List.{list_any};
ghost use Rattle.std.specs.Map.{lookup};
ghost use Rattle.command_trim.specs.Renames.{added, new_of, none_of, renaming};
ghost use Rattle.command_trim.specs.Trimmed.{id_or_same, is_kept, new_id};

use proof_laws::Line;
use scut_base::{Items, NoMemory};
use std::alloc::Global;
use std::marker::Model;

// For each id that a line has made, behind those of the rows, its new one, and 0 where the line wasn't kept.
#[derive(Debug, Drop)]
pub(crate) struct Renames {
    rows: u64,
    table: Items<u64>,
}

impl Model for Renames {
    ghost use Rattle.command_trim.specs.Renames.{RenamesValue};

    ghost Value = { RenamesValue };

    ghost view = { λ r. record { rows = r.rows; table = r.table } };
}

impl Renames {
    // Those before the first line.
    pub(crate) fn new(alloc: Global, rows: u64) -> Renames
        ensures { result ≡ record { rows = rows; table = [] } }
    {
        Renames {
            rows,
            table: Items::new(alloc),
        }
    }

    // The new id of one that a row has, or that a kept line has made; 0 stays too.
    pub(crate) fn new_id(&self, id: u64) -> Option<u64>
        ensures { result ≡ new_id (renaming self.now) id }
    {
        if id <= self.rows {
            return Some(id);
        }
        self.found(id)
    }

    // The new id, or the old one where there is none.
    pub(crate) fn id_or_same(&self, id: u64) -> u64
        ensures { result ≡ id_or_same (renaming self.now) id }
    {
        self.new_id(id).unwrap_or(id)
    }

    // Whether an id is that of a row, or of a kept line.
    pub(crate) fn is_kept(&self, id: u64) -> bool
        ensures { result ≡ is_kept (renaming self.now) id }
    {
        (1 <= id && id <= self.rows) || self.was_made(id)
    }

    // Whether a kept line has made the id.
    pub(crate) fn was_made(&self, id: u64) -> bool
        ensures { result ≡ list_any (λ e. nat_eq id e.0) (renaming self.now).made }
    {
        self.found(id).is_some()
    }

    // The new id of one that a kept line has made.
    fn found(&self, id: u64) -> Option<u64>
        ensures { result ≡ lookup (nat_eq id) (renaming self.now).made }
    {
        if id <= self.rows {
            return None;
        }
        match self.table.get((id - self.rows - 1) as usize) {
            Some(new) if *new != 0 => Some(*new),
            _ => None,
        }
    }

    // Takes up a line that is kept, whose first id becomes this one.
    pub(crate) fn keep(&mut self, line: &Line, new: u64) -> Result<(), NoMemory>
        requires { new ≤ 2 ^ 63 }
        ensures { OnOk result (self.new ≡ added self.old (new_of line.now new)) }
    {
        match line {
            Line::Def { .. } => {
                self.table.push(new)?;
                self.table.push(new + 1)
            }
            Line::Del { .. } | Line::Reduce { .. } | Line::End { .. } => Ok(()),
            _ => self.table.push(new),
        }
    }

    // Takes up a line that isn't.
    pub(crate) fn leave_out(&mut self, line: &Line) -> Result<(), NoMemory>
        ensures { OnOk result (self.new ≡ added self.old (none_of line.now)) }
    {
        match line {
            Line::Def { .. } => self.table.extend_from_slice(&[0, 0]),
            Line::Del { .. } | Line::Reduce { .. } | Line::End { .. } => Ok(()),
            _ => self.table.push(0),
        }
    }
}
