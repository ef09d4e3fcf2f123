// What the walk back from a conflict finds.
use hint_rup::Hint;
use scut_base::{Items, Lit};

/// What a conflict teaches: the clause of the first unique implication point, without literals that the
/// others imply.
#[derive(Debug, Drop)]
pub struct Lesson {
    /// The clause's literals, in rising order of variables.
    pub lits: Items<Lit>,
    /// The one that is forced after the jump back.
    pub lit: Lit,
    /// The level to jump back to: the second highest of the clause, or 0.
    pub level: u64,
    /// The reasons of the literals that are left out, each after those that it rests on; the reasons on
    /// the conflict's side of the cut, in the order of the trail; and then the conflict.
    pub hints: Items<Hint>,
    /// The literals of the steps above level 0 that the walk to the implication point met, in no order
    /// that is told.
    pub met: Items<Lit>,
}

/// Who is to blame for a literal that is false.
#[derive(Debug, Drop)]
pub struct Blame {
    /// The literal, and decisions that can't all be true with it, in rising order of variables.
    pub lits: Items<Lit>,
    /// What proves that, in the order of the trail.
    pub hints: Items<Hint>,
}
