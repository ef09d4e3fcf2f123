// Laws of what later lines leave as it is.
ghost use Rattle.totalizer.specs.Keeping.{BoundStays, FittingStays, OwnLinesStay, OwnTermsServe, ReformStays};

/// Law: lines that delete none but learned ones keep all others.
pub fn own_lines_stay()
    ensures { OwnLinesStay }
{}

/// Law: after such lines a totalizer may still be asked.
pub fn fitting_stays()
    ensures { FittingStays }
{}

/// Law: after such lines a bound still means what it did.
pub fn bounds_stay()
    ensures { BoundStays }
{}

/// Law: after such lines an objective in other terms still is one.
pub fn reform_stays()
    ensures { ReformStays }
{}

/// Law: an objective's own terms and offset serve as its reform, by no line.
pub fn own_terms_serve()
    ensures { OwnTermsServe }
{}
