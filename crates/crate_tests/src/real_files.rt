// The shelf over the real files and streams.
use scut_base::{HostShelf, Shelf, ShelfFault};
use std::test::Fail;

fn written(shelf: &mut HostShelf<HostRuntime>, name: &str) -> Result<(), ShelfFault> {
    shelf.begin(name)?;
    shelf.append(name, b"hel")?;
    shelf.append(name, b"lo")
}

#[test]
fn a_file_is_written_in_pieces_and_read_at_a_place(rt: HostRuntime) -> Result<(), Fail> {
    let mut shelf = HostShelf::new(rt);
    let mut into = [0u8; 9];
    assert!(rt; shelf.read_at("none.txt", 0, &mut into).is_err());
    written(&mut shelf, "a.txt")?;
    written(&mut shelf, "a.txt")?;
    let read = shelf.read_at("a.txt", 1, &mut into)?;
    assert_eq!(rt; &into[..read], b"ello".as_slice());
    shelf.say(b"")?;
    shelf.warn(b"")?;
    Ok(())
}
