// Laws of boosted lines.
ghost use Rattle.core_boosting.specs.Boosting.{BoostedStays};

/// Law: lines that begin with boosted ones are boosted.
pub fn boosted_stays()
    ensures { BoostedStays }
{}
