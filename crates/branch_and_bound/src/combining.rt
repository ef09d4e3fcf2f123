// Sums of lines by factors.
use crate::factors::{Factor, Multiplier};
use crate::pending::FIRST_PENDING;
use pb_lin::{Constraint, Lines, SIZE_LIMIT};
use scut_base::{Lit, NoMemory, Partial};
use std::alloc::Global;

// Live lines, and lines that may be added later, whose ids begin above all of those.
#[derive(Clone, Copy)]
pub(crate) struct Sources<'a> {
    pub(crate) live: &'a Lines,
    pub(crate) pending: &'a [Constraint],
}

impl<'a> Sources<'a> {
    // The line of an id.
    pub(crate) fn get(&self, id: u64) -> Option<&'a Constraint> {
        match id.checked_sub(FIRST_PENDING) {
            Some(place) => self.pending.get(place as usize),
            None => self.live.get(id),
        }
    }
}

// A sum of lines as `sum of coefficient times variable >= least`: the coefficient of the variable v is at v.
#[derive(Debug, Drop)]
pub(crate) struct Combination {
    coefficients: Vec<i128>,
    // The variables that the lines name, ascending: few beside all that there are.
    pub(crate) named: Vec<u64>,
    least: i128,
    // The sizes of the multiples together, which bounds that of each sum.
    size: u128,
}

impl Combination {
    // The empty sum, to which multiples of these lines may be added.
    pub(crate) fn over(
        alloc: Global,
        lines: &Sources<'_>,
        vars: u64,
        multipliers: &[Multiplier],
    ) -> Result<Combination, NoMemory> {
        let mut is_named = vec![in alloc; false; vars as usize]?;
        for multiplier in multipliers {
            if let Some(line) = lines.get(multiplier.line) {
                mark_named(&mut is_named, line);
            }
        }
        Ok(Combination {
            coefficients: vec![in alloc; 0; vars as usize]?,
            named: marked(alloc, is_named.as_slice())?,
            least: 0,
            size: 0,
        })
    }

    // Makes it the sum of the lines multiplied, and answers by how much that stays below what it has to be where the partial
    // assignment holds; `None` where it may not stay below, a line isn't there, or something is too large.
    pub(crate) fn shortfall_of(
        &mut self,
        lines: &Sources<'_>,
        factors: &[Factor],
        fixed: &Partial,
    ) -> Option<i128> {
        self.set(lines, factors)?;
        self.shortfall(fixed)
    }

    // Makes it the sum of the lines multiplied; `None` where one isn't there, or something is too large.
    fn set(&mut self, lines: &Sources<'_>, factors: &[Factor]) -> Option<()> {
        self.clear();
        for factor in factors {
            self.add(lines.get(factor.line)?, factor.factor)?;
        }
        Some(())
    }

    fn clear(&mut self) {
        self.least = 0;
        self.size = 0;
        for var in self.named.iter() {
            if let Some(place) = self.coefficients.get_mut(place_of(*var)) {
                *place = 0;
            }
        }
    }

    // The coefficient of a variable.
    pub(crate) fn coefficient(&self, var: u64) -> i128 {
        match self.coefficients.get(place_of(var)) {
            Some(coefficient) => *coefficient,
            None => 0,
        }
    }

    // Adds a multiple of a line; `None` where something is too large.
    fn add(&mut self, line: &Constraint, factor: u64) -> Option<()> {
        let factor = i128::from(factor);
        let degree = i128::try_from(line.degree()).ok()?;
        self.grow(degree.checked_mul(factor)?)?;
        self.least = self.least.checked_add(degree.checked_mul(factor)?)?;
        for at in 0..line.len() {
            let (lit, coefficient) = line.term(at);
            let coefficient = i128::try_from(coefficient).ok()?.checked_mul(factor)?;
            self.grow(coefficient)?;
            self.add_term(lit, coefficient)?;
        }
        Some(())
    }

    // Counts a number that isn't below 0; `None` where the size is too large.
    fn grow(&mut self, by: i128) -> Option<()> {
        self.size = self.size.checked_add(by.unsigned_abs())?;
        if self.size > SIZE_LIMIT {
            return None;
        }
        Some(())
    }

    // Adds a term, where `c·~x = c - c·x`.
    fn add_term(&mut self, lit: Lit, coefficient: i128) -> Option<()> {
        let place = self.coefficients.get_mut(place_of(lit.var()))?;
        if lit.is_neg() {
            *place = place.checked_sub(coefficient)?;
            self.least = self.least.checked_sub(coefficient)?;
        } else {
            *place = place.checked_add(coefficient)?;
        }
        Some(())
    }

    // By how much the sum stays below `least` where the partial assignment holds; `None` where it may not stay
    // below.
    fn shortfall(&self, fixed: &Partial) -> Option<i128> {
        let mut shortfall = self.least;
        for var in self.named.iter() {
            let most = most(fixed, *var, self.coefficient(*var));
            shortfall = shortfall.checked_sub(most)?;
        }
        if shortfall > 0 { Some(shortfall) } else { None }
    }
}

// Marks the variables of a line.
fn mark_named(is_named: &mut [bool], line: &Constraint) {
    for lit in line.literals() {
        if let Some(place) = is_named.get_mut(place_of(lit.var())) {
            *place = true;
        }
    }
}

// The variables that are marked.
fn marked(alloc: Global, is_marked: &[bool]) -> Result<Vec<u64>, NoMemory> {
    let mut vars = Vec::new(alloc);
    let mut var = 0u64;
    for is_marked in is_marked {
        var = var.saturating_add(1);
        if *is_marked {
            vars.push(var)?;
        }
    }
    Ok(vars)
}

// The place of a variable from 1 on.
pub(crate) fn place_of(var: u64) -> usize {
    var.saturating_sub(1) as usize
}

// The most that a term can be where the partial assignment holds.
fn most(fixed: &Partial, var: u64, coefficient: i128) -> i128 {
    match value_of(fixed, var) {
        Some(true) => coefficient,
        Some(false) => 0,
        None => coefficient.max(0),
    }
}

// The value of a variable, where it has one.
pub(crate) fn value_of(fixed: &Partial, var: u64) -> Option<bool> {
    if 0 < var && var <= fixed.len() && var < 1 << 63 {
        fixed.get(Lit::new(var, false))
    } else {
        None
    }
}
