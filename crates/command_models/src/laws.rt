// Laws of the command `models`.
ghost use Rattle.command_models.specs.Laws.{ListedAreAcceptable};

/// Law: what is left after Models is accepted by `check-models`, where no file is too large for it.
pub fn listed_are_acceptable()
    ensures { ListedAreAcceptable }
{}
