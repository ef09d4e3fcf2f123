// What judging works with beside a state.
use crate::row_index::RowIndex;
use scut_base::Partial;

// The room of a state for judging lines, of which contracts see nothing.
#[derive(Debug, Drop)]
pub(crate) struct Room {
    // For propagation: at least as long as there are variables.
    pub(crate) scratch: Partial,
    // Made at the first line `red` or `dom` that is judged; until then it has no rows.
    pub(crate) index: RowIndex,
}
