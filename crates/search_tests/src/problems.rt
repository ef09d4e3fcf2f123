// Problems of texts.
use instance_normal::normalise;
use mopb_reader::read;
use pb_lin::PbProblem;
use std::alloc::Global;
use std::test::Fail;

// A text is shorter.
const LONGEST: usize = 10_000;

// The problem that a text spells, in statements: objectives, and then rows.
pub fn problem(alloc: Global, text: &str) -> Result<PbProblem, Fail> {
    let bytes = text.as_bytes();
    if bytes.len() > LONGEST {
        return Err(Fail::new("the text is too long"));
    }
    let instance = read(alloc, bytes)?;
    Ok(normalise(alloc, &instance)?)
}
