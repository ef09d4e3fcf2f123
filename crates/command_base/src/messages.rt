// What a run says and warns.
ghost use Rattle.std.specs.Prelude.{◌≡◌, ◌++◌, [], ◌∷◌, codes, IfOk, OnOk, OnErr};
ghost use Rattle.scut_base.specs.Faults.{HasCause};
ghost use Rattle.scut_base.specs.Files.{followed, IsPartlyFollowed};
ghost use Rattle.scut_base.specs.Bytes.{newline};
ghost use Rattle.std.specs.Fmt.{decimal};
ghost use Rattle.command_base.specs.Messages.{check_warning, kind_name, limit_name, place_warning, said_of, warning_text};

use crate::Status;
use crate::refusals::{list_why_name, reps_why_text, why_text};
use instance::{BadKind, InstanceLimit};
use itoa::Buffer;
use log_checker::CheckFault;
use scut_base::{Items, NoMemory, Shelf, ShelfCall, ShelfFault};
use std::alloc::Global;

/// Says the line of a status, and of one that is warned of nothing. The caller decides what a fault means.
pub fn say_of<H: Shelf>(alloc: Global, status: Status, shelf: &mut H) -> Result<(), ShelfFault>
    ensures said { OnOk result
        ((H.world shelf.new).said ≡ followed (H.world shelf.old).said (said_of status)) }
    ensures cut { OnErr result
        (IsPartlyFollowed (H.world shelf.old).said (H.world shelf.new).said (said_of status)) }
    ensures files { (H.world shelf.new).files ≡ (H.world shelf.old).files }
    ensures warned { (H.world shelf.new).warned ≡ (H.world shelf.old).warned }
    ensures cause { HasCause ShelfCall.Say [] (H.world shelf.old).faults
        (H.world shelf.new).faults result }
{
    let line = said_of(alloc, status)?;
    if line.is_empty() {
        return Ok(());
    }
    shelf.say(line.as_slice())
}

/// Warns of a status by its line, and of one that is said by nothing. The caller decides
/// what a warning that fails means.
pub fn warn_of<H: Shelf>(alloc: Global, status: Status, shelf: &mut H) -> Result<(), ShelfFault>
    ensures warned { OnOk result
        ((H.world shelf.new).warned ≡ followed (H.world shelf.old).warned (warning_text status)) }
    ensures cut { OnErr result
        (IsPartlyFollowed (H.world shelf.old).warned (H.world shelf.new).warned
        (warning_text status)) }
    ensures files { (H.world shelf.new).files ≡ (H.world shelf.old).files }
    ensures said { (H.world shelf.new).said ≡ (H.world shelf.old).said }
    ensures cause { HasCause ShelfCall.Warn [] (H.world shelf.old).faults
        (H.world shelf.new).faults result }
{
    let line = warning_text(alloc, status)?;
    if line.is_empty() {
        return Ok(());
    }
    shelf.warn(line.as_slice())
}

// The line that is said of a status; empty where something is warned instead.
fn said_of(alloc: Global, status: Status) -> Result<Items<u8>, NoMemory>
    ensures { IfOk result (λ line. line ≡ said_of status) }
{
    match status {
        Status::Done => plain_line(alloc, "done\n"),
        Status::Accepted => plain_line(alloc, "accepted\n"),
        Status::Complete { size } => counting_line(alloc, "complete ", size),
        Status::Models { entries } => counting_line(alloc, "models ", entries),
        Status::Incomplete { size, learned } => {
            two_counts(alloc, "incomplete ", size, " after ", learned)
        }
        Status::Trimmed { kept, total } => two_counts(alloc, "trimmed ", kept, " of ", total),
        _ => Ok(Items::new(alloc)),
    }
}

// `complete n`
fn counting_line(alloc: Global, word: &str, n: u64) -> Result<Items<u8>, NoMemory>
    ensures { IfOk result (λ line. line ≡ word.now ++ decimal n ++ newline ∷ []) }
{
    let mut line = Vec::from_slice(alloc, word.as_bytes())?;
    line.extend_from_slice(Buffer::new().format(n).as_bytes())?;
    line.push(b'\n')?;
    Ok(Items::from_vec(line))
}

// `incomplete n after m`
fn two_counts(
    alloc: Global,
    word: &str,
    n: u64,
    between: &str,
    m: u64,
) -> Result<Items<u8>, NoMemory>
    ensures { IfOk result (λ line.
        line ≡ word.now ++ decimal n ++ between.now ++ decimal m ++ newline ∷ []) }
{
    let mut line = Vec::from_slice(alloc, word.as_bytes())?;
    line.extend_from_slice(Buffer::new().format(n).as_bytes())?;
    line.extend_from_slice(between.as_bytes())?;
    line.extend_from_slice(Buffer::new().format(m).as_bytes())?;
    line.push(b'\n')?;
    Ok(Items::from_vec(line))
}

// The line that is warned of a status; empty where something is said instead.
fn warning_text(alloc: Global, status: Status) -> Result<Items<u8>, NoMemory>
    ensures { IfOk result (λ line. line ≡ warning_text status) }
{
    match status {
        Status::Refused(fault) => check_warning(alloc, fault),
        Status::ModelsRefused { entry, why } => {
            place_warning(alloc, "models entry", entry, &reps_why_text(alloc, why)?)
        }
        Status::Usage => plain_line(alloc, "scuttle: usage\n"),
        Status::BadInput { line, kind } => {
            place_warning(alloc, "line", line, kind_name(kind).as_bytes())
        }
        Status::TooLarge { line, which } => limit_warning(alloc, line, limit_name(which)),
        Status::LogFull { .. } => plain_line(alloc, "scuttle: log full\n"),
        Status::NoMemory => plain_line(alloc, "scuttle: no memory\n"),
        Status::ShelfFailed => plain_line(alloc, "scuttle: file fault\n"),
        _ => Ok(Items::new(alloc)),
    }
}

fn plain_line(alloc: Global, line: &str) -> Result<Items<u8>, NoMemory>
    ensures { IfOk result (λ bytes. bytes ≡ line.now) }
{
    Ok(Items::from_vec(Vec::from_slice(alloc, line.as_bytes())?))
}

// The line of a fault of list or log.
fn check_warning(alloc: Global, fault: CheckFault) -> Result<Items<u8>, NoMemory>
    ensures { IfOk result (λ line. line ≡ check_warning fault) }
{
    match fault {
        CheckFault::Refused { line, why } => {
            place_warning(alloc, "log line", line, &why_text(alloc, why)?)
        }
        CheckFault::ListRefused { entry, why } => {
            place_warning(alloc, "list entry", entry, list_why_name(why).as_bytes())
        }
        CheckFault::NoMemory => plain_line(alloc, "scuttle: no memory\n"),
    }
}

// The line of a limit.
fn limit_warning(alloc: Global, line: u64, limit: &str) -> Result<Items<u8>, NoMemory>
    ensures { IfOk result (λ bytes.
        bytes ≡ place_warning (codes "line") line (codes "too large: " ++ limit.now)) }
{
    let mut what = Vec::from_slice(alloc, b"too large: ")?;
    what.extend_from_slice(limit.as_bytes())?;
    place_warning(alloc, "line", line, &what)
}

// `scuttle: place n: what`
fn place_warning(alloc: Global, place: &str, n: u64, what: &[u8]) -> Result<Items<u8>, NoMemory>
    ensures { IfOk result (λ bytes. bytes ≡ place_warning place.now n what.now) }
{
    let mut all = Vec::from_slice(alloc, b"scuttle: ")?;
    all.extend_from_slice(place.as_bytes())?;
    all.push(b' ')?;
    all.extend_from_slice(Buffer::new().format(n).as_bytes())?;
    all.extend_from_slice(b": ")?;
    all.extend_from_slice(what)?;
    all.push(b'\n')?;
    Ok(Items::from_vec(all))
}

fn kind_name(kind: BadKind) -> &'static str
    ensures { result.now ≡ kind_name kind }
{
    match kind {
        BadKind::UnknownLine => "UnknownLine",
        BadKind::ObjectiveIndex => "ObjectiveIndex",
        BadKind::WeightExpected => "WeightExpected",
        BadKind::LiteralExpected => "LiteralExpected",
        BadKind::ZeroMissing => "ZeroMissing",
        BadKind::TextAfterZero => "TextAfterZero",
        BadKind::NumberTooWide => "NumberTooWide",
        BadKind::TermExpected => "TermExpected",
        BadKind::RelationExpected => "RelationExpected",
        BadKind::BoundExpected => "BoundExpected",
        BadKind::SemicolonMissing => "SemicolonMissing",
        BadKind::Product => "Product",
        BadKind::ObjectiveAfterConstraint => "ObjectiveAfterConstraint",
    }
}

fn limit_name(which: InstanceLimit) -> &'static str
    ensures { result.now ≡ limit_name which }
{
    match which {
        InstanceLimit::Bytes => "Bytes",
        InstanceLimit::Vars => "Vars",
        InstanceLimit::Weights => "Weights",
        InstanceLimit::Row => "Row",
        InstanceLimit::Objectives => "Objectives",
    }
}
