// The clauses, one after the other in words: length, standing, record, and literals.

use crate::limits::MOST_WORDS;
use crate::literals::{Literal, word_of};
use scut_base::NoMemory;
use std::alloc::Global;

const HEADER: usize = 3;

const STANDING: usize = 1;

const RECORD: usize = 2;

const LEARNED: u32 = 1;

const DROPPED: u32 = 2;

const USED_SHIFT: u32 = 4;

const GLUE_SHIFT: u32 = 8;

// How a clause stands, which is one word in the arena.
#[derive(Clone, Copy, Debug)]
pub(crate) struct Standing {
    pub(crate) is_learned: bool,
    // It's to be taken out.
    pub(crate) is_dropped: bool,
    // In how many of the next reductions it counts as used: at most 3.
    pub(crate) used: u32,
    // How many levels its literals had (Audemard and Simon 2009).
    pub(crate) glue: u32,
}

// How a clause stands that isn't learned.
pub(crate) const TAKEN_UP: Standing = Standing {
    is_learned: false,
    is_dropped: false,
    used: 0,
    glue: 0,
};

impl Standing {
    fn of_word(word: u32) -> Standing {
        Standing {
            is_learned: word & LEARNED != 0,
            is_dropped: word & DROPPED != 0,
            used: (word >> USED_SHIFT) & 3,
            glue: word >> GLUE_SHIFT,
        }
    }

    fn to_word(self) -> u32 {
        let learned = if self.is_learned { LEARNED } else { 0 };
        let dropped = if self.is_dropped { DROPPED } else { 0 };
        let used = self.used.min(3) << USED_SHIFT;
        let glue = self.glue.min(u32::MAX >> GLUE_SHIFT) << GLUE_SHIFT;
        learned | dropped | used | glue
    }
}

#[derive(Debug, Drop)]
pub(crate) struct Arena {
    words: Vec<u32>,
}

impl Arena {
    pub(crate) fn new(alloc: Global) -> Arena {
        Arena {
            words: Vec::new(alloc),
        }
    }

    // Puts a clause at the end and tells its place. Where there is no room more, memory counts as refused.
    pub(crate) fn add(
        &mut self,
        lits: &[Literal],
        standing: Standing,
        record: u32,
    ) -> Result<u32, NoMemory> {
        let at = self.words.len();
        if at.saturating_add(lits.len()) >= MOST_WORDS - HEADER {
            return Err(NoMemory);
        }
        self.words.push(word_of(lits.len()))?;
        self.words.push(standing.to_word())?;
        self.words.push(record)?;
        for lit in lits {
            self.words.push(lit.code())?;
        }
        Ok(word_of(at))
    }

    // Copies a clause of another arena to the end.
    pub(crate) fn add_from(&mut self, other: &Arena, at: u32) -> Result<u32, NoMemory> {
        let place = word_of(self.words.len());
        let end = (at as usize)
            .wrapping_add(HEADER)
            .wrapping_add(other.length(at));
        if let Some(words) = other.words.as_slice().get(at as usize..end) {
            self.words.extend_from_slice(words)?;
        }
        Ok(place)
    }

    fn word(&self, at: usize) -> u32 {
        match self.words.get(at) {
            Some(word) => *word,
            None => 0,
        }
    }

    fn set_word(&mut self, at: usize, word: u32) {
        if let Some(place) = self.words.get_mut(at) {
            *place = word;
        }
    }

    #[inline(always)]
    pub(crate) fn length(&self, at: u32) -> usize {
        self.word(at as usize) as usize
    }

    pub(crate) fn standing(&self, at: u32) -> Standing {
        Standing::of_word(self.word((at as usize).wrapping_add(STANDING)))
    }

    pub(crate) fn set_standing(&mut self, at: u32, standing: Standing) {
        self.set_word((at as usize).wrapping_add(STANDING), standing.to_word());
    }

    pub(crate) fn record(&self, at: u32) -> u32 {
        self.word((at as usize).wrapping_add(RECORD))
    }

    // As the arena is moved, the record's word tells the new place.
    pub(crate) fn set_record(&mut self, at: u32, record: u32) {
        self.set_word((at as usize).wrapping_add(RECORD), record);
    }

    // The literal of this number of a clause.
    pub(crate) fn literal(&self, at: u32, number: usize) -> Literal {
        let place = (at as usize).wrapping_add(HEADER).wrapping_add(number);
        Literal::of_code(self.word(place))
    }

    // The codes of a clause's literals.
    #[inline(always)]
    pub(crate) fn codes(&self, at: u32) -> &[u32] {
        let from = (at as usize).wrapping_add(HEADER);
        let end = from.wrapping_add(self.length(at));
        match self.words.as_slice().get(from..end) {
            Some(codes) => codes,
            None => &[],
        }
    }

    #[inline(always)]
    pub(crate) fn codes_mut(&mut self, at: u32) -> &mut [u32] {
        let from = (at as usize).wrapping_add(HEADER);
        let end = from.wrapping_add(self.length(at));
        match self.words.as_mut_slice().get_mut(from..end) {
            Some(codes) => codes,
            None => &mut [],
        }
    }
}
