use crate::FileKeeper;
use cat_model::{Bytes, Command, Entry, List, Shared, Text};
use outside::{KeepFail, Keeper};
use server_journal::{FileJournal, MemJournal, open_file_journal};
use std::alloc::Global;
use std::fs;
use std::test::Fail;
use store_records::{Record, RecordFault, read_record, store_record, vote_record, write_record};

const FOLDER: &str = "file_keeper_test";

// Entries that delete the key a.
fn entries(alloc: Global, term: u64, numbers: &[u64]) -> Result<List<Entry>, Fail> {
    let mut list = List::new(alloc);
    for number in numbers {
        let key = Text::new(alloc, "a")?;
        list.push(Entry {
            term,
            number: *number,
            command: Shared::new(alloc, Command::KvDelete { key })?,
        })?;
    }
    Ok(list)
}

// A store over these bytes. The calls with the given numbers fail, and leave three bytes of what they put.
fn over(alloc: Global, bytes: &[u8], failing: &[u64]) -> Result<FileKeeper<MemJournal>, Fail> {
    let failing = List::from(failing.to_vec(alloc)?);
    let bytes = Bytes::new(alloc, bytes)?;
    Ok(FileKeeper::new(MemJournal::new(bytes, failing, 3)))
}

#[test]
fn records_have_their_spellings(rt: HostRuntime) -> Result<(), Fail> {
    let alloc = rt.alloc();
    let vote = Record::Vote {
        term: 3,
        vote: Some(1),
    };
    let mut out = Bytes::new(alloc, &[])?;
    write_record(alloc, &vote, &mut out)?;
    assert_eq!(rt; out.as_slice(), [4, 1, 3, 1, 1].as_slice());
    assert_eq!(rt; vote_record(alloc, 3, Some(1))?.as_slice(), out.as_slice());
    let Some(store) = store_record(alloc, 2, &entries(alloc, 1, &[5])?)? else {
        panic!(rt; "the record is short");
    };
    let bytes = store.as_slice();
    assert_eq!(rt; bytes, [9, 2, 2, 1, 1, 5, 1, 7, 1, 97].as_slice());
    for end in 0..bytes.len() {
        assert!(rt; matches!(read_record(alloc, &bytes[..end]), Err(RecordFault::Cut)));
    }
    assert!(rt;
        matches!(
            read_record(alloc, bytes),
            Ok((Record::Store { index: 2, .. }, 10))
        )
    );
    Ok(())
}

// Where no record begins bytes, or goes on with them.
#[test]
fn bad_records_are_told(rt: HostRuntime) -> Result<(), Fail> {
    let alloc = rt.alloc();
    let rows: [(&[u8], usize); 6] = [
        // A length below 3, and one above 100,000,000.
        (&[2, 1], 0),
        (&[129, 194, 215, 47], 3),
        // A payload of neither kind, and one that ends before its length, or behind it.
        (&[5, 9], 1),
        (&[5, 1, 3, 1, 1], 4),
        (&[3, 1, 3, 1, 1], 3),
        (b"hello", 1),
    ];
    for (bytes, place) in rows {
        let at = match read_record(alloc, bytes) {
            Err(RecordFault::Bad { at }) => Some(at),
            _ => None,
        };
        assert_eq!(rt; at, Some(place));
    }
    Ok(())
}

#[test]
fn a_torn_record_is_cut_off(rt: HostRuntime) -> Result<(), Fail> {
    let alloc = rt.alloc();
    // The calls are a read at the end and the append that fails; then a read, one at the end, and the cut.
    let mut keeper = over(alloc, &[], &[2])?;
    assert_eq!(rt; keeper.load(alloc)?.term, 0);
    assert!(rt; keeper.save_vote(alloc, 3, Some(1)) == Err(KeepFail::Failed));
    assert!(rt; keeper.save_vote(alloc, 3, Some(1)) == Err(KeepFail::Failed));
    assert_eq!(rt; keeper.load(alloc)?.term, 0);
    keeper.save_vote(alloc, 4, None)?;
    assert_eq!(rt; keeper.into_journal().bytes(), [3, 1, 4, 0].as_slice());
    Ok(())
}

#[test]
fn other_bytes_are_refused_and_stay(rt: HostRuntime) -> Result<(), Fail> {
    let alloc = rt.alloc();
    // A text, a store that leaves a gap, and a byte that was changed in the middle.
    let rows: [&[u8]; 3] = [
        b"hello",
        &[9, 2, 2, 1, 1, 5, 1, 7, 1, 97],
        &[5, 1, 3, 1, 1, 4, 1, 3, 1, 1],
    ];
    for bytes in rows {
        let mut keeper = over(alloc, bytes, &[])?;
        assert!(rt; matches!(keeper.load(alloc), Err(KeepFail::Failed)));
        assert_eq!(rt; keeper.into_journal().bytes(), bytes);
    }
    Ok(())
}

// A journal of this server in the test's folder.
fn in_folder(rt: &HostRuntime, server: u32) -> Result<FileKeeper<FileJournal>, Fail> {
    Ok(FileKeeper::new(open_file_journal(rt, FOLDER, server)?))
}

#[test]
fn a_file_keeps_what_it_is_given(rt: HostRuntime) -> Result<(), Fail> {
    let alloc = rt.alloc();
    let _ = fs::remove_dir_all(&rt, FOLDER);
    let mut keeper = in_folder(&rt, 1)?;
    assert!(rt; keeper.save_vote(alloc, 1, None) == Err(KeepFail::Failed));
    assert_eq!(rt; keeper.load(alloc)?.log.len(), 0);
    keeper.save_vote(alloc, 3, Some(1))?;
    keeper.store_from(alloc, 1, &entries(alloc, 1, &[5, 6, 7])?)?;
    keeper.store_from(alloc, 3, &entries(alloc, 3, &[8, 9])?)?;
    let kept = keeper.load(alloc)?;
    assert_eq!(rt; (kept.term, kept.vote, kept.log.len()), (3, Some(1), 4));

    // One journal alone has the file.
    assert!(rt; open_file_journal(&rt, FOLDER, 1).is_err());
    drop(keeper);
    assert_eq!(rt; in_folder(&rt, 1)?.load(alloc)?.log.len(), 4);
    fs::remove_dir_all(&rt, FOLDER)?;
    Ok(())
}

#[test]
fn a_file_without_its_last_byte_is_cut(rt: HostRuntime) -> Result<(), Fail> {
    let alloc = rt.alloc();
    let path = "file_keeper_cut/server-2.journal";
    let _ = fs::remove_dir_all(&rt, "file_keeper_cut");
    fs::create_dir(&rt, "file_keeper_cut")?;
    fs::write(&rt, path, [4, 1, 3, 1, 1, 9, 2, 1, 1, 1, 5, 1, 7, 1])?;
    let mut keeper = FileKeeper::new(open_file_journal(&rt, "file_keeper_cut", 2)?);
    assert_eq!(rt; keeper.load(alloc)?.term, 3);
    assert_eq!(rt; fs::metadata(&rt, path)?.len(), 5);
    keeper.save_vote(alloc, 4, None)?;
    assert_eq!(rt;
        fs::read(&rt, path)?.as_slice(),
        [4, 1, 3, 1, 1, 3, 1, 4, 0].as_slice()
    );
    drop(keeper);
    fs::remove_dir_all(&rt, "file_keeper_cut")?;
    Ok(())
}
