// What the analysis of a conflict works with, kept so that it takes no memory anew.

use crate::literals::Literal;
use crate::records::Hint;
use scut_base::NoMemory;
use std::alloc::Global;

// What is known of a variable within one analysis.
#[derive(Clone, Copy, Debug)]
pub(crate) struct Mark {
    // It stands in the clause, or was resolved upon.
    pub(crate) is_met: bool,
    // Others of the clause imply it.
    pub(crate) is_implied: bool,
    // They don't.
    pub(crate) is_not_implied: bool,
    // It's in the clause that is learned.
    pub(crate) stays: bool,
    // The hints have what it stands on.
    pub(crate) has_hints: bool,
}

const NO_MARK: Mark = Mark {
    is_met: false,
    is_implied: false,
    is_not_implied: false,
    stays: false,
    has_hints: false,
};

#[derive(Debug, Drop)]
pub(crate) struct Work {
    marks: Vec<Mark>,
    marked: Vec<u32>,
    // Of each level when it was counted last.
    level_stamps: Vec<u64>,
    stamp: u64,
    // The false literals of the reason that is looked at.
    pub(crate) antecedents: Vec<Literal>,
    // Of a row's false literals: whether it's of a level above 0, its coefficient below 0, and itself.
    pub(crate) candidates: Vec<(bool, i64, Literal)>,
    // The clause that is learned, the literal that it makes true first.
    pub(crate) learned: Vec<Literal>,
    // The variables of literals that were left out of it.
    pub(crate) left_out: Vec<u32>,
    // The records that it stands on, by their literals' places on the trail.
    pub(crate) chain: Vec<(u32, u32)>,
    // The variables of level 0 that it stands on.
    pub(crate) roots: Vec<u32>,
    pub(crate) hints: Vec<Hint>,
    pub(crate) bumped: Vec<u32>,
    pub(crate) stack: Vec<u32>,
    pub(crate) by_stamp: Vec<(u64, u32)>,
}

impl Work {
    pub(crate) fn new(alloc: Global) -> Work {
        Work {
            marks: Vec::new(alloc),
            marked: Vec::new(alloc),
            level_stamps: Vec::new(alloc),
            stamp: 0,
            antecedents: Vec::new(alloc),
            candidates: Vec::new(alloc),
            learned: Vec::new(alloc),
            left_out: Vec::new(alloc),
            chain: Vec::new(alloc),
            roots: Vec::new(alloc),
            hints: Vec::new(alloc),
            bumped: Vec::new(alloc),
            stack: Vec::new(alloc),
            by_stamp: Vec::new(alloc),
        }
    }

    // Makes the variables up to this number known.
    pub(crate) fn grow(&mut self, vars: u32) -> Result<(), NoMemory> {
        for _var in self.marks.len()..(vars as usize).saturating_add(1) {
            self.marks.push(NO_MARK)?;
            self.level_stamps.push(0)?;
        }
        Ok(())
    }

    // Begins another analysis.
    pub(crate) fn begin(&mut self) {
        self.clear_marks();
        self.learned.clear();
        self.left_out.clear();
        self.chain.clear();
        self.roots.clear();
        self.hints.clear();
        self.bumped.clear();
        self.stack.clear();
    }

    fn clear_marks(&mut self) {
        for var in self.marked.iter() {
            if let Some(mark) = self.marks.get_mut(*var as usize) {
                *mark = NO_MARK;
            }
        }
        self.marked.clear();
    }

    #[inline(always)]
    pub(crate) fn mark(&self, var: u32) -> Mark {
        match self.marks.get(var as usize) {
            Some(mark) => *mark,
            None => NO_MARK,
        }
    }

    pub(crate) fn set_mark(&mut self, var: u32, mark: Mark) -> Result<(), NoMemory> {
        self.marked.push(var)?;
        if let Some(place) = self.marks.get_mut(var as usize) {
            *place = mark;
        }
        Ok(())
    }

    // How many marks were set so far.
    pub(crate) fn moment(&self) -> usize {
        self.marked.len()
    }

    // Of the variables marked since a moment, none is known to be implied any more.
    pub(crate) fn doubt_from(&mut self, moment: usize) {
        for at in moment..self.marked.len() {
            let var = self.marked.get(at).copied().unwrap_or(0);
            if let Some(mark) = self.marks.get_mut(var as usize) {
                mark.is_implied = false;
            }
        }
    }

    // The variable of level 0 is one of those that the clause stands on.
    pub(crate) fn need_root(&mut self, var: u32) -> Result<(), NoMemory> {
        let mark = self.mark(var);
        if !mark.has_hints {
            self.set_mark(
                var,
                Mark {
                    has_hints: true,
                    ..mark
                },
            )?;
            self.roots.push(var)?;
        }
        Ok(())
    }

    // From now on no level is counted.
    pub(crate) fn begin_levels(&mut self) {
        self.stamp = self.stamp.wrapping_add(1);
    }

    // Counts a level, and tells whether it wasn't before.
    #[inline(always)]
    pub(crate) fn count_level(&mut self, level: u32) -> bool {
        let stamp = self.stamp;
        match self.level_stamps.get_mut(level as usize) {
            Some(place) if *place != stamp => {
                *place = stamp;
                true
            }
            _ => false,
        }
    }

    // Whether a level was counted.
    pub(crate) fn is_counted(&self, level: u32) -> bool {
        self.level_stamps.get(level as usize) == Some(&self.stamp)
    }

    // The hints: variables of level 0, the chain in the order of the trail, and what is violated in the end.
    pub(crate) fn make_hints(&mut self, last: Option<u32>) -> Result<(), NoMemory> {
        self.chain.sort_unstable();
        self.hints.clear();
        for var in self.roots.iter() {
            self.hints.push(Hint::Root(*var))?;
        }
        self.add_chain()?;
        if let Some(record) = last {
            self.hints.push(Hint::Record(record))?;
        }
        Ok(())
    }

    // A row that makes several literals true is named once for those that follow each other.
    fn add_chain(&mut self) -> Result<(), NoMemory> {
        let mut last = 0;
        for (_place, record) in self.chain.iter() {
            if *record != last {
                self.hints.push(Hint::Record(*record))?;
                last = *record;
            }
        }
        Ok(())
    }
}
