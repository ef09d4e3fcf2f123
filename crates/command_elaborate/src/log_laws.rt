// Laws of elaborated logs.
ghost use Rattle.command_elaborate.specs.LooselyAccepted.{LooselyAcceptedWhereElaborated};

/// Law: a log is loosely accepted with a list exactly if elaborating its lines refuses none, and the elaborated log is accepted
/// with that list.
pub fn loosely_accepted_where_elaborated()
    ensures { LooselyAcceptedWhereElaborated }
{}
