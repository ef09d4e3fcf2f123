// Rows that count.
use pb_lin::Constraint;

/// Whether some literal of a row doesn't meet it by itself, so that it counts. Costs a pass over the row.
pub fn wants_more_than_one(row: &Constraint) -> bool {
    for at in 0..row.len() {
        if row.term(at).1 < row.degree() {
            return true;
        }
    }
    false
}
