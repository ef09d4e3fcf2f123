//! Cuts: rows that all whole points of other rows meet, and that a given point between them doesn't.
//!
//! Its public contract: only that it returns. A cut comes with the rows and factors by which it's made, so that whoever uses it makes
//! it by his own arithmetic: nothing of the floats is believed. The same calls in the same order give the same cuts: there is no
//! clock in it, and no random source. The crate knows no constraint, no proof and no linear program.
//!
//! Sources: rows of the simplex table, divided and rounded (Gomory 1958; Chvátal 1973); zero-half cuts (Caprara and
//! Fischetti 1996), found by elimination over two elements (Koster, Zymolka and Kutschka 2009); mixed-integer rounding of such rows
//! (Gomory 1960; Nemhauser and Wolsey 1990) and of single ones (Marchand and Wolsey 2001).
#![tactic(auto)]

mod bits;
mod choosing;
mod cut;
mod limits;
mod own_rows;
mod rounding;
mod separation;
mod table_rows;
mod zero_half;

pub use cut::{Addends, ColumnFactor, Cut, Kind, RowFactor, Term};
pub use separation::Separation;
