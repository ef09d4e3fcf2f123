// What is noted of a literal.
ghost use Rattle.std.specs.Prelude.{◌≡◌, OnOk};
ghost use Rattle.harden.specs.Noted.{in_row};

use scut_base::{Items, NoMemory};

// Where a literal stands: in some row, in some objective, and in which rows with a coefficient below the
// degree, by rising ids.
#[derive(Debug, Drop)]
pub(crate) struct Occurrence {
    pub(crate) in_rows: bool,
    pub(crate) in_costs: bool,
    pub(crate) open_rows: Items<u64>,
}

// Notes that it stands in the row of this id, and whether that is left open where it is true.
pub(crate) fn note_row(place: &mut Occurrence, left: bool, id: u64) -> Result<(), NoMemory>
    ensures { OnOk result (place.new ≡ in_row left id place.old) }
{
    place.in_rows = true;
    if left {
        place.open_rows.push(id)?;
    }
    Ok(())
}
