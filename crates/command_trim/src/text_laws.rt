// Laws of trimmed logs.
ghost use Rattle.command_trim.specs.TrimmedText.{TrimmedTextsAreAccepted};

/// Law: where a log is accepted for a list, each text of its trimmed lines, in either version, is accepted for the same list.
pub fn trimmed_texts_are_accepted()
    ensures { TrimmedTextsAreAccepted }
{}
