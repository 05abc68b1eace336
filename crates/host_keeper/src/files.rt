//! The files of servers, in which their journals stand.

ghost use Rattle.std.specs.Prelude.{◌≡◌, ℕ, List, Option, Some, length, IfOk};
ghost use Rattle.std.specs.Option.{ForSome, option_map};
ghost use Rattle.host_keeper.specs.Folders.{Files, bytes_in};

use server_journal::{FileJournal, Journal, open_file_journal};
use std::alloc::Global;
use std::fs::File;
use std::io::ErrorKind;
use std::rt::Files;
use std::{fs, io};

/// The files of servers in folders, each with a journal.
pub trait JournalFiles {
    /// The journal in a file.
    type J: Journal + Drop;

    /// The bytes in the file of each server of a folder, where the object tells them.
    ghost files: { Self → Option (List ℕ → Files) };

    /// How many bytes the file of this server has, if it is there.
    fn size(&self, alloc: Global, folder: &str, server: u32) -> io::Result<Option<u64>>
        ensures { IfOk result (λ size. ForSome (files self.now) (λ all. size ≡ option_map length (all folder.now server))) };

    /// Opens the journal in it, for this process alone. Folder and file are made where they are not there.
    fn open(&self, alloc: Global, folder: &str, server: u32) -> io::Result<Self::J>
        ensures unused { IfOk result (λ journal. Self.J.faults journal ≡ 0) }
        ensures its { IfOk result (λ journal. ForSome (files self.now) (λ all. Self.J.bytes journal ≡ Some (bytes_in (all folder.now server)))) };
}

/// The files `server-S.journal` in folders of the machine, which tell none of their bytes.
#[derive(Drop)]
pub struct HostFiles<R> {
    rt: R,
}

impl<R> HostFiles<R> {
    pub fn new(rt: R) -> HostFiles<R> {
        HostFiles { rt }
    }
}

impl<R: Files<File = File> + AllocGlobal> JournalFiles for HostFiles<R> {
    ghost use Rattle.std.specs.Prelude.{None};

    type J = FileJournal;

    ghost files = { λ _. None };

    fn size(&self, alloc: Global, folder: &str, server: u32) -> io::Result<Option<u64>> {
        let path = format!(in alloc; "{folder}/server-{server}.journal")?;
        match fs::metadata(&self.rt, path.as_str()) {
            Ok(found) => Ok(Some(found.len())),
            Err(fault) if fault.kind() == ErrorKind::NotFound => Ok(None),
            Err(fault) => Err(fault),
        }
    }

    fn open(&self, _alloc: Global, folder: &str, server: u32) -> io::Result<FileJournal> {
        open_file_journal(&self.rt, folder, server)
    }
}
