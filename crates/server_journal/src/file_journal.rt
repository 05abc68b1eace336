ghost use Rattle.std.specs.Prelude.{◌≡◌, IfOk};

use crate::{Disk, DiskJournal};
use outside::Failed;
use std::fs::{File, OpenOptions};
use std::os::unix::fs::FileExt;
use std::rt::Files;
use std::{fs, io};

// No file has a byte at or behind this place.
const NO_PLACE: u64 = 1 << 63;

/// A file of the machine, which tells none of its bytes.
#[derive(Drop)]
pub struct DiskFile {
    file: File,
}

impl Disk for DiskFile {
    ghost use Rattle.std.specs.Prelude.{None};

    ghost shown = { λ _. None };

    ghost synced = { λ _. None };

    fn read_at(&mut self, at: u64, into: &mut [u8]) -> Result<usize, Failed> {
        if at >= NO_PLACE {
            return Ok(0);
        }
        self.file.read_at(into, at).map_err(|_| Failed)
    }

    fn put_at(&mut self, at: u64, piece: &[u8]) -> Result<(), Failed> {
        self.file.write_all_at(piece, at).map_err(|_| Failed)
    }

    fn set_length(&mut self, length: u64) -> Result<(), Failed> {
        self.file.set_len(length).map_err(|_| Failed)
    }

    fn sync(&mut self) -> Result<(), Failed> {
        self.file.sync_data().map_err(|_| Failed)
    }
}

/// The journal in the file `server-S.journal` of a folder, open for this process alone.
pub type FileJournal = DiskJournal<DiskFile>;

// The folder, which is made where it is not there. The one that it stands in has to be there.
fn open_folder<R: Files<File = File> + AllocGlobal>(rt: &R, folder: &str) -> io::Result<File> {
    if fs::metadata(rt, folder).is_err() {
        fs::create_dir(rt, folder)?;
        let above = format!(in rt.alloc(); "{folder}/..")?;
        File::open(rt, above.as_str())?.sync_all()?;
    }
    File::open(rt, folder)
}

/// Opens the journal of this server, or makes an empty one, and makes its folder where that is not there. A second one
/// over the same file, here or in another process, is refused. What an earlier process left, and the file's name, are on
/// the disk then.
pub fn open_file_journal<R: Files<File = File> + AllocGlobal>(
    rt: &R,
    folder: &str,
    server: u32,
) -> io::Result<FileJournal>
    ensures { IfOk result (λ journal. journal.faults ≡ 0) }
{
    let directory = open_folder(rt, folder)?;
    let path = format!(in rt.alloc(); "{folder}/server-{server}.journal")?;
    let file = OpenOptions::new()
        .read(true)
        .write(true)
        .create(true)
        .open(rt, path.as_str())?;
    file.try_lock()?;
    file.sync_all()?;
    directory.sync_all()?;
    let end = file.metadata()?.len();
    Ok(DiskJournal::new(DiskFile { file }, end))
}
