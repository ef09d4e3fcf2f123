// Laws of lines by cutting planes that are added.
ghost use Rattle.sum_outputs.specs.Laws.{PolMayBeAdded, SumMayBeAdded};

/// Law: tokens that make a constraint of the live lines may be recorded, and leave it under the next id.
pub fn pol_may_be_added()
    ensures { PolMayBeAdded }
{}

/// Law: so may those that add two live lines of at most 2^100 together, and leave their sum.
pub fn sum_may_be_added()
    ensures { SumMayBeAdded }
{}
