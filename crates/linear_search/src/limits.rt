// What a question may spend.

// What the first question spends is so many quarters of the purse, and after questions that were answered up to the other number.
pub(crate) const FIRST_STAKE: u64 = 4;

pub(crate) const MOST_STAKE: u64 = 16;
