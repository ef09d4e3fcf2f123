// The parts of a constraint, in little room for clauses and cardinalities.
ghost use Rattle.std.specs.Prelude.{◌≡◌, ◌↔◌, ◌<◌, ◌≤◌, [], length, take, IsTrue, IfOk, slice_index_or};
ghost use Rattle.scut_base.specs.Literal.{Literal};
ghost use Rattle.pb_lin.specs.Parts.{PartsValue};

use scut_base::{Duplicate, Items, Lit, NoMemory, boxed};
use std::alloc::Global;
use std::marker::Model;

// As many literals of a clause stand in the constraint itself.
const MOST_INLINE: usize = 4;

// Each half of a degree is below this.
const HALF_LIMIT: u128 = 1 << 64;

// Literals, their coefficients in order, none where all are 1, and a degree. Takes 48 bytes; besides, a list of the
// literals but for clauses of one to four, and a box where there are coefficients.
#[derive(Debug, Drop)]
pub(crate) struct Parts {
    kind: Kind,
}

#[derive(Debug, Drop)]
enum Kind {
    // A clause of the first literals, as many as `len` says.
    Short {
        len: usize,
        lits: [Lit; 4],
    },
    // No coefficients. The degree stands in two halves, since a `u128` has to stand at a multiple of 16
    // bytes, which would make each constraint 16 bytes larger.
    Ones {
        lits: Items<Lit>,
        low: u64,
        high: u64,
    },
    Mixed {
        lits: Items<Lit>,
        weights: Box<Weights>,
    },
}

#[derive(Debug, Drop)]
struct Weights {
    coefs: Items<u128>,
    degree: u128,
}

impl Model for Parts {
    ghost use Rattle.pb_lin.specs.Parts.{PartsValue, parts_of, IsInRoom};

    ghost Value = { PartsValue };

    ghost view = { λ p. parts_of p.kind };

    ghost invariant = { λ p. IsInRoom p.kind };
}

impl Parts {
    // No coefficients. Takes no memory.
    pub(crate) fn ones(lits: Items<Lit>, degree: u128) -> Parts
        ensures { result ≡ record { lits = lits; coefs = []; degree = degree } }
    {
        let len = lits.len();
        if degree == 1 && len > 0 && len <= MOST_INLINE {
            return Parts::short(lits.as_slice());
        }
        let kind = Kind::Ones {
            lits,
            low: (degree % HALF_LIMIT) as u64,
            high: (degree / HALF_LIMIT) as u64,
        };
        Parts { kind }
    }

    // A clause of one to four literals.
    fn short(lits: &[Lit]) -> Parts
        requires some { 0 < length lits.now }
        requires few { length lits.now ≤ 4 }
        ensures { result ≡ record { lits = lits.now; coefs = []; degree = 1 } }
    {
        let first = lits[0];
        let kind = Kind::Short {
            len: lits.len(),
            lits: [
                first,
                lit_or(lits, 1, first),
                lit_or(lits, 2, first),
                lit_or(lits, 3, first),
            ],
        };
        Parts { kind }
    }

    // With these coefficients. Takes memory for a box where there are any.
    pub(crate) fn new(
        alloc: Global,
        lits: Items<Lit>,
        coefs: Items<u128>,
        degree: u128,
    ) -> Result<Parts, NoMemory>
        ensures { IfOk result (λ p. p ≡ record { lits = lits; coefs = coefs; degree = degree }) }
    {
        if coefs.is_empty() {
            return Ok(Parts::ones(lits, degree));
        }
        let weights = boxed(alloc, Weights { coefs, degree })?;
        Ok(Parts {
            kind: Kind::Mixed { lits, weights },
        })
    }

    // The literals.
    pub(crate) fn literals(&self) -> &[Lit]
        ensures { result.now ≡ self.now.lits }
    {
        match &self.kind {
            Kind::Short { len, lits } => &lits[..*len],
            Kind::Ones { lits, .. } => lits.as_slice(),
            Kind::Mixed { lits, .. } => lits.as_slice(),
        }
    }

    // The degree.
    pub(crate) fn degree(&self) -> u128
        ensures { result ≡ self.now.degree }
    {
        match &self.kind {
            Kind::Short { .. } => 1,
            Kind::Ones { low, high, .. } => *high as u128 * HALF_LIMIT + *low as u128,
            Kind::Mixed { weights, .. } => weights.degree,
        }
    }

    // Whether there are no coefficients. Takes constant time.
    pub(crate) fn is_ones(&self) -> bool
        ensures { IsTrue result ↔ (self.now.coefs ≡ []) }
    {
        match &self.kind {
            Kind::Short { .. } => true,
            Kind::Ones { .. } => true,
            Kind::Mixed { weights, .. } => weights.coefs.is_empty(),
        }
    }

    // The coefficients.
    pub(crate) fn coefficients(&self) -> &[u128]
        ensures { result.now ≡ self.now.coefs }
    {
        match &self.kind {
            Kind::Short { .. } => &[],
            Kind::Ones { .. } => &[],
            Kind::Mixed { weights, .. } => weights.coefs.as_slice(),
        }
    }

    // The coefficient at a place, which is 1 past the end.
    pub(crate) fn coefficient(&self, at: usize) -> u128
        ensures { result ≡ slice_index_or self.now.coefs at 1 }
    {
        coefficient(self.coefficients(), at)
    }

    // The same coefficients, with other literals and another degree.
    pub(crate) fn replaced(
        &self,
        alloc: Global,
        lits: Items<Lit>,
        degree: u128,
    ) -> Result<Parts, NoMemory>
        ensures { IfOk result (λ p. p ≡ record { lits = lits; coefs = self.now.coefs; degree = degree }) }
    {
        let coefs = Vec::from_slice(alloc, self.coefficients())?;
        Parts::new(alloc, lits, Items::from_vec(coefs), degree)
    }
}

impl Duplicate for Parts {
    fn copy(&self, alloc: Global) -> Result<Parts, NoMemory> {
        let kind = match &self.kind {
            Kind::Short { len, lits } => Kind::Short {
                len: *len,
                lits: *lits,
            },
            Kind::Ones { lits, low, high } => Kind::Ones {
                lits: lits.copy(alloc)?,
                low: *low,
                high: *high,
            },
            Kind::Mixed { lits, weights } => Kind::Mixed {
                lits: lits.copy(alloc)?,
                weights: boxed(alloc, weights.copy(alloc)?)?,
            },
        };
        Ok(Parts { kind })
    }
}

impl Duplicate for Weights {
    fn copy(&self, alloc: Global) -> Result<Weights, NoMemory> {
        Ok(Weights {
            coefs: Items::from_vec(Vec::from_slice(alloc, self.coefs.as_slice())?),
            degree: self.degree,
        })
    }
}

// The literal at a place, or another one past the end.
fn lit_or(lits: &[Lit], at: usize, past: Lit) -> Lit
    ensures { result ≡ slice_index_or lits.now at past }
{
    if at < lits.len() { lits[at] } else { past }
}

// The coefficient at a place, which is 1 past the end.
pub(crate) fn coefficient(coefs: &[u128], at: usize) -> u128
    ensures { result ≡ slice_index_or coefs.now at 1 }
{
    if at < coefs.len() {
        return coefs[at];
    }
    1
}
