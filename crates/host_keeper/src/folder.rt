//! Whether a server may begin in a folder.

ghost use Rattle.std.specs.Prelude.{◌≡◌, ℕ, None, Some, length, IfErr, IfOk};
ghost use Rattle.std.specs.Option.{ForSome, option_map};
ghost use Rattle.host_keeper.specs.Folders.{Files, Fits, HasBytes, HasNothingKept, HasReason, IsKept, IsThere, IsWithin, bytes_in};

use crate::faults::{Fault, Refusal};
use crate::files::JournalFiles;
use std::alloc::Global;
use std::io;
use std::io::ErrorKind;

// A folder is made for fewer servers than this.
const ABOVE_MOST: u32 = 8;

// How many bytes the file of this server has, if it is there.
fn size_of<F: JournalFiles>(
    files: &F,
    alloc: Global,
    folder: &str,
    server: u32,
) -> Result<Option<u64>, Refusal>
    ensures ok { IfOk result (λ size. ForSome (F.files files.now) (λ all. size ≡ option_map length (all folder.now server))) }
    ensures err { IfErr result (λ refusal. ForSome (F.files files.now) (λ all. (servers : ℕ) → HasReason (all folder.now) servers refusal)) }
{
    match files.size(alloc, folder, server) {
        Ok(size) => Ok(size),
        Err(fault) => Err(Refusal::unopened(server, fault)),
    }
}

// Whether the file of this server is there.
fn is_there<F: JournalFiles>(
    files: &F,
    alloc: Global,
    folder: &str,
    server: u32,
) -> Result<bool, Refusal>
    ensures ok { IfOk result (λ there. ForSome (F.files files.now) (λ all. IsThere there (all folder.now server))) }
    ensures err { IfErr result (λ refusal. ForSome (F.files files.now) (λ all. (servers : ℕ) → HasReason (all folder.now) servers refusal)) }
{
    let size = size_of(files, alloc, folder, server)?;
    Ok(size.is_some())
}

// Whether this server has kept something.
fn has_kept<F: JournalFiles>(
    files: &F,
    alloc: Global,
    folder: &str,
    server: u32,
) -> Result<bool, Refusal>
    ensures ok { IfOk result (λ kept. ForSome (F.files files.now) (λ all. HasBytes kept (all folder.now server))) }
    ensures err { IfErr result (λ refusal. ForSome (F.files files.now) (λ all. (servers : ℕ) → HasReason (all folder.now) servers refusal)) }
{
    match size_of(files, alloc, folder, server)? {
        Some(size) => Ok(size > 0),
        None => Ok(false),
    }
}

// Refuses a folder that was made for more servers than these.
fn refuse_surplus<F: JournalFiles>(
    files: &F,
    alloc: Global,
    folder: &str,
    servers: u32,
) -> Result<(), Refusal>
    ensures ok { IfOk result (λ _. ForSome (F.files files.now) (λ all. IsWithin servers (all folder.now))) }
    ensures err { IfErr result (λ refusal. ForSome (F.files files.now) (λ all. HasReason (all folder.now) servers refusal)) }
{
    for server in servers.saturating_add(1)..ABOVE_MOST {
        if is_there(files, alloc, folder, server)? {
            return Err(Refusal {
                server,
                fault: Fault::Surplus,
            });
        }
    }
    Ok(())
}

// Whether any server has kept something in the folder.
fn has_any_kept<F: JournalFiles>(files: &F, alloc: Global, folder: &str) -> Result<bool, Refusal>
    ensures ok { IfOk result (λ kept. ForSome (F.files files.now) (λ all. IsKept kept (all folder.now))) }
    ensures err { IfErr result (λ refusal. ForSome (F.files files.now) (λ all. (servers : ℕ) → HasReason (all folder.now) servers refusal)) }
{
    for server in 1..ABOVE_MOST {
        if has_kept(files, alloc, folder, server)? {
            return Ok(true);
        }
    }
    Ok(false)
}

// Refuses a folder without the file of this server in which another server has kept something: it was made for fewer
// servers, or the file was lost. All files of a folder are made before anything is kept.
fn refuse_missing<F: JournalFiles>(
    files: &F,
    alloc: Global,
    folder: &str,
    server: u32,
) -> Result<(), Refusal>
    ensures ok { IfOk result (λ _. ForSome (F.files files.now) (λ all. all folder.now server ≡ None → HasNothingKept (all folder.now))) }
    ensures err { IfErr result (λ refusal. ForSome (F.files files.now) (λ all. (servers : ℕ) → HasReason (all folder.now) servers refusal)) }
{
    if is_there(files, alloc, folder, server)? {
        return Ok(());
    }
    if has_any_kept(files, alloc, folder)? {
        return Err(Refusal {
            server,
            fault: Fault::Missing,
        });
    }
    Ok(())
}

// Why a journal could not be opened.
fn refusal_of(server: u32, fault: io::Error) -> Refusal
    ensures { (files : Files) (servers : ℕ) → HasReason files servers result }
{
    if fault.kind() == ErrorKind::WouldBlock {
        return Refusal {
            server,
            fault: Fault::Taken,
        };
    }
    Refusal::unopened(server, fault)
}

/// The journal of this server, one of so many, in the folder, which is made where it is not there.
pub(crate) fn open_journal<F: JournalFiles>(
    files: &F,
    alloc: Global,
    folder: &str,
    server: u32,
    servers: u32,
) -> Result<F::J, Refusal>
    ensures unused { IfOk result (λ journal. F.J.faults journal ≡ 0) }
    ensures its { IfOk result (λ journal. ForSome (F.files files.now) (λ all. F.J.bytes journal ≡ Some (bytes_in (all folder.now server)))) }
    ensures fits { IfOk result (λ _. ForSome (F.files files.now) (λ all. Fits (all folder.now) server servers)) }
    ensures err { IfErr result (λ refusal. ForSome (F.files files.now) (λ all. HasReason (all folder.now) servers refusal)) }
{
    refuse_surplus(files, alloc, folder, servers)?;
    refuse_missing(files, alloc, folder, server)?;
    match files.open(alloc, folder, server) {
        Ok(journal) => Ok(journal),
        Err(fault) => Err(refusal_of(server, fault)),
    }
}
