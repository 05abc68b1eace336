ghost use Rattle.std.specs.Prelude.{◌≡◌, Some};
ghost use Rattle.std.specs.Option.{option_map};
ghost use Rattle.host_keeper.specs.Folders.{file_of};

use crate::files::JournalFiles;
use cat_model::{Bytes, List, Memory};
use server_journal::SureJournal;
use std::alloc::Global;
use std::io;
use std::io::ErrorKind;
use std::marker::Model;

/// Files in memory, the same in every folder: those of the servers from 1 on. A journal that is opened begins with the
/// bytes of its file, and what it is given goes with it.
#[derive(Drop)]
pub struct MemFiles {
    files: List<Bytes>,
}

impl Model for MemFiles {
    ghost use Rattle.std.specs.Prelude.{ℕ, List};

    ghost Value = { List (List ℕ) };

    ghost view = { λ m. m.files };
}

impl MemFiles {
    /// The files with these bytes, which takes no memory.
    pub fn new(files: List<Bytes>) -> MemFiles
        ensures { result ≡ files }
    {
        MemFiles { files }
    }

    // The file of this server, if it is there.
    fn file(&self, server: u32) -> Option<&[u8]>
        ensures { option_map (λ b. b.now) result ≡ file_of self.now server }
    {
        let at = server.checked_sub(1)?;
        match self.files.as_slice().get(at as usize) {
            Some(file) => Some(file.as_slice()),
            None => None,
        }
    }
}

impl JournalFiles for MemFiles {
    type J = SureJournal;

    ghost files = { λ m. Some (λ _. file_of m) };

    fn size(&self, _alloc: Global, _folder: &str, server: u32) -> io::Result<Option<u64>> {
        match self.file(server) {
            Some(file) => Ok(Some(file.len() as u64)),
            None => Ok(None),
        }
    }

    fn open(&self, alloc: Global, _folder: &str, server: u32) -> io::Result<SureJournal> {
        let bytes = self.file(server).unwrap_or(b"");
        match Bytes::new(alloc, bytes) {
            Ok(bytes) => Ok(SureJournal::new(bytes)),
            Err(Memory) => Err(ErrorKind::OutOfMemory.into()),
        }
    }
}
