// Partial assignments that constraints can't extend, whatever their length.
ghost use Rattle.pb_lin.specs.Propagation.{ClosedAtAnyLength, ConflictsAtOneLength};

/// Law: a partial assignment that is cut after the variables of the constraints, or has open variables at
/// its end, is closed for them exactly where it was.
pub fn closed_at_any_length()
    ensures { ClosedAtAnyLength }
{}

/// Law: constraints over the variables 1 to n conflict by propagation exactly where no partial
/// assignment of length n is closed for them.
pub fn conflicts_at_one_length()
    ensures { ConflictsAtOneLength }
{}
