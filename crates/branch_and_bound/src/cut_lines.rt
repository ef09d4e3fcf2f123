// Cuts as tokens of lines: sums that are divided and rounded up, and mixed-integer roundings (DECISIONS, rounded-cuts).
use crate::live_lines::LiveLines;
use crate::relaxation::Relaxation;
use cutting_planes::PolToken;
use linear_cuts::{Addends, ColumnFactor, Cut, Term};
use pb_lin::{Constraint, LinFault};
use scut_base::{Items, Lit, NoMemory};
use std::alloc::Global;
use std::num::saturating_f64_to_i64;

impl Relaxation {
    // Keeps a cut, if a line can be made of it, and answers its place.
    pub(crate) fn keep_cut(
        &mut self,
        live: &LiveLines<'_>,
        cut: &Cut,
    ) -> Result<Option<usize>, NoMemory> {
        if cut.is_divided() {
            let tokens = self.divided_tokens(cut)?;
            return self.cuts.keep_sum(live, tokens);
        }
        let Some(made) = constraint_of(self.alloc, cut.terms.as_slice(), cut.least)? else {
            return Ok(None);
        };
        let tokens = self.rounded_tokens(cut)?;
        self.cuts.keep_implied(live, made, tokens)
    }

    // The tokens `ID y * .. + LIT m * + .. d` of a cut.
    fn divided_tokens(&self, cut: &Cut) -> Result<Items<PolToken>, NoMemory> {
        let mut tokens = Items::new(self.alloc);
        self.add_addends(&mut tokens, &cut.padded)?;
        tokens.push(PolToken::Div(i128::from(cut.divisor)))?;
        Ok(tokens)
    }

    // The tokens of a mixed-integer rounding: its negation times the scale, evened out, with what is loose, is divided by the rest
    // and multiplied by what the divisor exceeds that. With what is padded, and the evened negation once more, that is `0 >= 1`.
    fn rounded_tokens(&self, cut: &Cut) -> Result<Items<PolToken>, NoMemory> {
        let mut tokens = Items::new(self.alloc);
        add_negation(&mut tokens, cut)?;
        self.add_addends(&mut tokens, &cut.loose)?;
        tokens.push(PolToken::Div(i128::from(cut.rest)))?;
        let times = cut.divisor.saturating_sub(cut.rest);
        tokens.push(PolToken::Mul(i128::from(times)))?;
        self.add_addends(&mut tokens, &cut.padded)?;
        add_negation(&mut tokens, cut)?;
        Ok(tokens)
    }

    // Adds rows and columns by their factors to the sum so far.
    fn add_addends(&self, tokens: &mut Items<PolToken>, addends: &Addends) -> Result<(), NoMemory> {
        for factor in addends.rows.iter() {
            let id = self.rows.get(factor.row).map(|row| self.id_of(*row));
            add_summand(tokens, PolToken::Id(id.unwrap_or(0)), factor.factor)?;
        }
        add_columns(tokens, addends.columns.as_slice())
    }
}

// Adds the negation of a cut times its scale, evened out, to the sum so far.
fn add_negation(tokens: &mut Items<PolToken>, cut: &Cut) -> Result<(), NoMemory> {
    add_summand(tokens, PolToken::Negated, cut.scale)?;
    add_columns(tokens, cut.evening.as_slice())
}

// Adds columns by their factors to the sum so far.
fn add_columns(tokens: &mut Items<PolToken>, columns: &[ColumnFactor]) -> Result<(), NoMemory> {
    for column in columns {
        if let Some(lit) = literal_at(column.column, column.is_complemented) {
            add_summand(tokens, PolToken::Axiom(lit), column.factor)?;
        }
    }
    Ok(())
}

// Adds a token times a factor to the sum so far.
fn add_summand(tokens: &mut Items<PolToken>, token: PolToken, factor: u64) -> Result<(), NoMemory> {
    let is_first = tokens.is_empty();
    tokens.push(token)?;
    if factor > 1 {
        tokens.push(PolToken::Mul(i128::from(factor)))?;
    }
    if !is_first {
        tokens.push(PolToken::Add)?;
    }
    Ok(())
}

// The constraint that terms of whole numbers are at least this; `None` where they make none.
fn constraint_of(
    alloc: Global,
    terms: &[Term],
    least: f64,
) -> Result<Option<Constraint>, NoMemory> {
    let mut named = Vec::with_capacity(alloc, terms.len())?;
    for term in terms {
        let Some(lit) = literal_at(term.column, false) else {
            return Ok(None);
        };
        named.push((i128::from(saturating_f64_to_i64(term.coefficient)), lit))?;
    }
    let least = i128::from(saturating_f64_to_i64(least));
    match Constraint::normal(alloc, named.as_slice(), least) {
        Ok(made) => Ok(Some(made)),
        Err(LinFault::NoMemory) => Err(NoMemory),
        Err(_) => Ok(None),
    }
}

// The literal of a column, or its opposite.
fn literal_at(column: usize, is_opposite: bool) -> Option<Lit> {
    let var = (column as u64).checked_add(1)?;
    if var < 1 << 63 {
        Some(Lit::new(var, is_opposite))
    } else {
        None
    }
}
