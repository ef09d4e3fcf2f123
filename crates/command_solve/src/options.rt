// The options of the command.
ghost use Rattle.std.specs.Prelude.{◌≡◌, option_map};
ghost use Rattle.std.specs.List.{list_all};
ghost use Rattle.command_solve.specs.TurnDigits.{are_turns, has_third, is_in_turns, is_turn, takes, turns_fit};
ghost use Rattle.command_solve.specs.Words.{limit_of, search_named, search_of, search_with, version_named, version_of};

use command_base::number_up_to;
use proof_text::LogVersion;

/// A search for the front.
#[derive(Clone, Copy, Debug, PartialEq, Eq)]
pub enum SearchKind {
    /// Improves one model until none is better, then starts afresh.
    PMinimal,
    /// From below: bounds of all costs, which rise where no model keeps to them.
    LowerBounding,
    /// For two objectives: the first cost is lowered, then the second.
    BiOptSat,
    /// These three in turns.
    Turns,
}

// The search of S of `--search S` and T of `--turns T`, where they fit.
pub(crate) fn search_with(name: Option<&str>, turns: Option<&str>) -> Option<SearchKind>
    ensures { result ≡ search_with (option_map (λ s. s.now) name.entry)
        (option_map (λ s. s.now) turns.entry) }
{
    let search = search_of(name)?;
    if turns_fit(search, turns) {
        return Some(search);
    }
    None
}

// Whether turns are given to a search in turns, and to no other.
fn turns_fit(search: SearchKind, turns: Option<&str>) -> bool
    ensures { result ≡ turns_fit search (option_map (λ s. s.now) turns.entry) }
{
    match turns {
        Some(digits) => is_in_turns(search) && are_turns(digits.as_bytes()),
        None => !is_in_turns(search),
    }
}

fn is_in_turns(search: SearchKind) -> bool
    ensures { result ≡ is_in_turns search }
{
    matches!(search, SearchKind::Turns)
}

// One digit or more, each the number of a search.
fn are_turns(digits: &[u8]) -> bool
    ensures { result ≡ are_turns digits.now }
{
    !digits.is_empty() && all_turns(digits)
}

// Each the number of a search.
fn all_turns(digits: &[u8]) -> bool
    ensures { result ≡ list_all is_turn digits.now }
{
    for digit in digits {
        if !is_turn(*digit) {
            return false;
        }
    }
    true
}

// From 1 to 3.
fn is_turn(digit: u8) -> bool
    ensures { result ≡ is_turn digit }
{
    b'1' <= digit && digit <= b'3'
}

// Whether the search takes an instance of so many objectives.
pub(crate) fn takes(search: SearchKind, turns: Option<&str>, objectives: usize) -> bool
    ensures { result ≡ takes search (option_map (λ s. s.now) turns.entry) objectives }
{
    match search {
        SearchKind::PMinimal | SearchKind::LowerBounding => true,
        SearchKind::BiOptSat => objectives == 2,
        SearchKind::Turns => match turns {
            Some(digits) => {
                are_turns(digits.as_bytes()) && (objectives == 2 || !has_third(digits.as_bytes()))
            }
            None => false,
        },
    }
}

// Whether there are turns of the third search.
fn has_third(digits: &[u8]) -> bool
    ensures { result ≡ has_third digits.now }
{
    digits.iter().any(|digit| *digit == b'3')
}

// S of `--search S`, where it is given; `None` where there is no such search.
fn search_of(name: Option<&str>) -> Option<SearchKind>
    ensures { result ≡ search_of (option_map (λ s. s.now) name.entry) }
{
    match name {
        Some(name) => search_named(name),
        None => Some(SearchKind::PMinimal),
    }
}

// The search of this name.
fn search_named(name: &str) -> Option<SearchKind>
    ensures { result ≡ search_named name.now }
{
    match name {
        "p-minimal" => Some(SearchKind::PMinimal),
        "lower-bounding" => Some(SearchKind::LowerBounding),
        "bioptsat" => Some(SearchKind::BiOptSat),
        "turns" => Some(SearchKind::Turns),
        _ => None,
    }
}

// How many clauses may be learned, where N of `--learn N` is given; `None` where N is no such number.
pub(crate) fn limit_of(text: Option<&str>) -> Option<Option<u64>>
    ensures { result ≡ limit_of (option_map (λ s. s.now) text.entry) }
{
    match text {
        Some(text) => Some(Some(number_up_to(1 << 62, text)?)),
        None => Some(None),
    }
}

// V of `--log-version V`, where it is given; `None` where there is no such version.
pub(crate) fn version_of(name: Option<&str>) -> Option<LogVersion>
    ensures { result ≡ version_of (option_map (λ s. s.now) name.entry) }
{
    match name {
        Some(name) => version_named(name),
        None => Some(LogVersion::One),
    }
}

// The version of this number.
fn version_named(name: &str) -> Option<LogVersion>
    ensures { result ≡ version_named name.now }
{
    match name {
        "1" => Some(LogVersion::One),
        "2" => Some(LogVersion::Two),
        _ => None,
    }
}
