// Cuts as lines by cutting planes, which are added only once a clause that is written stands on them.
use crate::live_lines::LiveLines;
use crate::pending::{FIRST_PENDING, is_contradicted, pending_constraint};
use crate::tree_lines::TreeLine;
use cutting_planes::PolToken;
use pb_lin::Constraint;
use scut_base::{Duplicate, Items, NoMemory};
use std::alloc::Global;

// Cuts that lines can be made of. A cut's tokens name live lines, and cuts before it by ids from `FIRST_PENDING` on.
#[derive(Debug, Drop)]
pub(crate) struct Cuts {
    pub(crate) alloc: Global,
    pub(crate) tokens: Vec<Items<PolToken>>,
    pub(crate) constraints: Vec<Constraint>,
    // Whether each cut's tokens make a contradiction of its negation; else they make the cut.
    are_implied: Vec<bool>,
    // The id of each cut's line; 0 where it hasn't been added.
    pub(crate) ids: Vec<u64>,
    // In how many solves, one after another, each was slack.
    idle: Vec<u32>,
    // The ids of the lines that were added, ascending.
    pub(crate) written: Vec<u64>,
    // How many terms they have together.
    pub(crate) size: usize,
}

impl Cuts {
    pub(crate) fn new(alloc: Global) -> Cuts {
        Cuts {
            alloc,
            tokens: Vec::new(alloc),
            constraints: Vec::new(alloc),
            are_implied: Vec::new(alloc),
            ids: Vec::new(alloc),
            idle: Vec::new(alloc),
            written: Vec::new(alloc),
            size: 0,
        }
    }

    // Keeps the cut that these tokens make, if they make a constraint, and answers its place.
    pub(crate) fn keep_sum(
        &mut self,
        live: &LiveLines<'_>,
        tokens: Items<PolToken>,
    ) -> Result<Option<usize>, NoMemory> {
        let pending = self.constraints.as_slice();
        match pending_constraint(self.alloc, live, pending, tokens.as_slice(), None)? {
            Some(made) => Ok(Some(self.keep(made, tokens, false)?)),
            None => Ok(None),
        }
    }

    // Keeps a cut, if these tokens make a contradiction of its negation, and answers its place.
    pub(crate) fn keep_implied(
        &mut self,
        live: &LiveLines<'_>,
        cut: Constraint,
        tokens: Items<PolToken>,
    ) -> Result<Option<usize>, NoMemory> {
        let pending = self.constraints.as_slice();
        if is_contradicted(self.alloc, live, pending, tokens.as_slice(), &cut)? {
            Ok(Some(self.keep(cut, tokens, true)?))
        } else {
            Ok(None)
        }
    }

    fn keep(
        &mut self,
        cut: Constraint,
        tokens: Items<PolToken>,
        is_implied: bool,
    ) -> Result<usize, NoMemory> {
        let place = self.constraints.len();
        self.size = self.size.saturating_add(cut.len());
        self.ids.push(0)?;
        self.idle.push(0)?;
        self.tokens.push(tokens)?;
        self.constraints.push(cut)?;
        self.are_implied.push(is_implied)?;
        Ok(place)
    }

    // The id of a cut: that of its line, or the one by which it is named until then.
    pub(crate) fn id(&self, place: usize) -> u64 {
        match self.ids.get(place) {
            Some(id) if *id > 0 => *id,
            _ => FIRST_PENDING.saturating_add(place as u64),
        }
    }

    // Notes whether a cut is slack now, and answers in how many solves it has been.
    pub(crate) fn note_slack(&mut self, place: usize, is_slack: bool) -> u32 {
        match self.idle.get_mut(place) {
            Some(idle) => {
                *idle = if is_slack { idle.saturating_add(1) } else { 0 };
                *idle
            }
            None => 0,
        }
    }

    // Whether the line of this id is a cut.
    pub(crate) fn has_written(&self, id: u64) -> bool {
        self.written.as_slice().binary_search(&id).is_ok()
    }

    // Notes that a cut's line was added.
    pub(crate) fn note(&mut self, place: usize, id: u64) -> Result<(), NoMemory> {
        if let Some(slot) = self.ids.get_mut(place) {
            *slot = id;
            self.written.push(id)?;
        }
        Ok(())
    }

    // The tokens with the ids of lines that were added.
    pub(crate) fn translated(&self, tokens: &[PolToken]) -> Result<Items<PolToken>, NoMemory> {
        let mut own = Items::with_capacity(self.alloc, tokens.len())?;
        for token in tokens {
            own.push(match cut_of(*token) {
                Some(place) => PolToken::Id(self.id(place)),
                None => *token,
            })?;
        }
        Ok(own)
    }

    // Whether a cut's line was added.
    pub(crate) fn is_written(&self, place: usize) -> bool {
        match self.ids.get(place) {
            Some(id) => *id > 0,
            None => false,
        }
    }

    // A cut's line; none where there's no such cut.
    pub(crate) fn line(&self, place: usize) -> Result<Option<TreeLine>, NoMemory> {
        let (Some(tokens), Some(cut)) = (self.tokens.get(place), self.constraints.get(place)) else {
            return Ok(None);
        };
        let tokens = self.translated(tokens.as_slice())?;
        Ok(Some(if self.are_implied.get(place) == Some(&true) {
            TreeLine::Implied(cut.copy(self.alloc)?, tokens)
        } else {
            TreeLine::Sum(tokens)
        }))
    }

    // Forgets the lines from this id on, which weren't added after all.
    pub(crate) fn forget_from(&mut self, end: u64) {
        for id in self.ids.iter_mut() {
            if *id >= end {
                *id = 0;
            }
        }
        let kept = self.written.iter().filter(|id| **id < end).count();
        self.written.truncate(kept);
    }

    // Marks the cuts that tokens name.
    pub(crate) fn mark(&self, needed: &mut [bool], tokens: &[PolToken]) {
        for token in tokens {
            if let Some(place) = cut_of(*token) {
                if let Some(slot) = needed.get_mut(place) {
                    *slot = true;
                }
            }
        }
    }

    // Marks those that the marked ones stand on too: these come before them.
    pub(crate) fn mark_below(&self, needed: &mut [bool]) {
        for place in (0..self.tokens.len()).rev() {
            if needed.get(place) == Some(&true) {
                if let Some(tokens) = self.tokens.get(place) {
                    self.mark(needed, tokens.as_slice());
                }
            }
        }
    }
}

// The cut that a token names.
fn cut_of(token: PolToken) -> Option<usize> {
    match token {
        PolToken::Id(id) => id.checked_sub(FIRST_PENDING).map(|place| place as usize),
        _ => None,
    }
}
