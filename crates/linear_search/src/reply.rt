// What comes of a question.
use oracle::Core;
use scut_base::{Items, Lit};

/// Whether the assumptions can be true together, as far as linear relaxations tell.
#[derive(Debug, Drop)]
pub enum Reply {
    /// They can't: already some of them can't, by a live clause.
    Closed(Core),
    /// Perhaps they can where these literals are true.
    Model(Items<Lit>),
    /// It isn't known.
    Unknown,
}
