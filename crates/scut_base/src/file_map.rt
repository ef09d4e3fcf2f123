// Files in memory, by their names.
ghost use Rattle.std.specs.Prelude.{◌≡◌, ◌++◌, [], None, Some, IsOk, IsSome, MatchOption, OnOk, OnErr};
ghost use Rattle.std.specs.FinMap.{empty, insert};
ghost use Rattle.scut_base.specs.Files.{bytes_or_none, content};

use crate::{Items, NoMemory};
use std::alloc::Global;
use std::collections::BTreeMap;
use std::marker::Model;

// Files, found by their names. Contracts see it as a finite map from names to bytes.
#[derive(Drop)]
pub(crate) struct FileMap {
    files: BTreeMap<String, Items<u8>>,
}

impl Model for FileMap {
    ghost use Rattle.scut_base.specs.Files.{Files};
    ghost use Rattle.scut_base.specs.FileMap.{files_code, files_of};

    ghost Value = { Files };

    ghost coded = { files_code };

    ghost view = { λ m. files_of m.files.entries };
}

impl FileMap {
    // No file yet. Takes no memory.
    pub(crate) fn new(alloc: Global) -> FileMap
        ensures { result ≡ empty }
    {
        FileMap {
            files: BTreeMap::new(alloc),
        }
    }

    // The bytes of a file, if it is there.
    pub(crate) fn get(&self, name: &str) -> Option<&Items<u8>>
        ensures { MatchOption result (content (Some self.now) name.now ≡ None)
            (λ bytes. content (Some self.now) name.now ≡ Some bytes.now) }
    {
        self.files.get(name)
    }

    // Puts a file there, in place of one of that name.
    pub(crate) fn put(
        &mut self,
        alloc: Global,
        name: &str,
        bytes: Items<u8>,
    ) -> Result<(), NoMemory>
        ensures ok { OnOk result (self.new ≡ insert self.old name.now bytes) }
        ensures err { OnErr result (self.new ≡ self.old) }
    {
        let kept = String::from_str(alloc, name)?;
        self.files.insert(kept, bytes)?;
        Ok(())
    }

    // Puts a piece after the bytes of a file that is there.
    pub(crate) fn append(&mut self, name: &str, piece: &[u8]) -> Result<(), NoMemory>
        requires { IsSome (content (Some self.old) name.now) }
        ensures ok { OnOk result (self.new ≡ insert self.old name.now
            (bytes_or_none (content (Some self.old) name.now) ++ piece.now)) }
        ensures err { OnErr result (self.new ≡ self.old) }
        ensures nothing { piece.now ≡ [] → IsOk result }
    {
        match self.files.get_mut(name) {
            Some(bytes) => {
                bytes.extend_from_slice(piece)?;
                Ok(())
            }
            None => unreachable!(),
        }
    }
}
