//! Servers over what earlier ones left: over a folder, and over files in memory.

use crate::served::{no_ports, over, served};
use cat_model::{Bytes, List};
use host_keeper::{HostFiles, JournalFiles, MemFiles};
use std::alloc::Global;
use std::process::Abort;
use std::sync::Wait;
use std::test::Fail;
use std::thread::Threads;
use std::{fs, time};

const FOLDER: &str = "restart_tests_kept";

const PUT: &[u8] = b"PUT /v1/kv/a HTTP/1.1\r\nHost: x\r\nContent-Length: 5\r\n\r\nhello";

const GET: &[u8] = b"GET /v1/kv/a?raw HTTP/1.1\r\nHost: x\r\n\r\n";

// What a run of three servers left: a vote, the entry with which a leader begins, and `hello` as the value of the key a.
const LEFT: [u8; 30] = [
    4, 1, 1, 1, 1, 7, 2, 1, 1, 1, 0, 1, 0, 16, 2, 2, 1, 1, 1, 1, 3, 1, 97, 0, 5, 104, 101, 108,
    108, 111,
];

// The status of so many servers over these files, and what they said to a connection that sent these bytes.
fn said_by<
    R: Threads + Wait + time::Clock + Copy + Send + Sync + Drop + 'static,
    F: JournalFiles + Drop,
>(rt: R, alloc: Global, files: F, servers: u32, bytes: &[u8]) -> Result<(u8, Vec<u8>), Fail>
where
    F::J: Send + 'static,
{
    let words = format!(in alloc;
        "serve --servers {servers} --agents 1 --port 8500 --connections 1 --keep {FOLDER}"
    )?;
    let outside = over(alloc, files, servers, no_ports(alloc)?)?;
    let ended = served(rt, alloc, words.as_str(), bytes, outside)?;
    Ok((ended.status, ended.said))
}

#[test]
fn what_was_acknowledged_is_read_again(rt: HostRuntime) -> Result<(), Fail> {
    let alloc = rt.alloc();
    let _ = fs::remove_dir_all(&rt, FOLDER);
    let (status, said) = said_by(rt, alloc, HostFiles::new(rt), 3, PUT)?;
    assert_eq!(rt; status, 0);
    assert!(rt; said.as_slice().ends_with(b"\r\n\r\ntrue"));

    // What was kept is there, again and again.
    for _ in 0..2 {
        let (status, said) = said_by(rt, alloc, HostFiles::new(rt), 3, GET)?;
        assert_eq!(rt; status, 0);
        assert!(rt; said.as_slice().ends_with(b"\r\n\r\nhello"));
    }

    // The folder was made for three servers.
    for servers in [1, 4] {
        let (status, said) = said_by(rt, alloc, HostFiles::new(rt), servers, GET)?;
        assert_eq!(rt; status, 9);
        assert!(rt; said.is_empty());
    }
    fs::write(&rt, "restart_tests_kept/server-2.journal", b"hello")?;
    assert_eq!(rt; said_by(rt, alloc, HostFiles::new(rt), 3, GET)?.0, 9);
    fs::remove_dir_all(&rt, FOLDER)?;
    Ok(())
}

// The files of servers with these bytes.
fn files(alloc: Global, each: &[&[u8]]) -> Result<MemFiles, Fail> {
    let mut files = List::new(alloc);
    for bytes in each {
        files.push(Bytes::new(alloc, bytes)?)?;
    }
    Ok(MemFiles::new(files))
}

#[test]
fn what_a_run_left_is_read_again(rt: HostRuntime) -> Result<(), Fail> {
    let alloc = rt.alloc();
    // The third server has not heard of the last entry.
    let left = files(alloc, &[&LEFT, &LEFT, &LEFT[..13]])?;
    let (status, said) = said_by(rt, alloc, left, 3, GET)?;
    assert_eq!(rt; status, 0);
    assert!(rt; said.as_slice().ends_with(b"\r\n\r\nhello"));
    Ok(())
}

#[test]
fn what_was_cut_off_is_not_there(rt: HostRuntime) -> Result<(), Fail> {
    let alloc = rt.alloc();
    let cut = files(alloc, &[&LEFT[..29]])?;
    let (status, said) = said_by(rt, alloc, cut, 1, GET)?;
    assert_eq!(rt; status, 0);
    assert!(rt; said.as_slice().starts_with(b"HTTP/1.1 404 "));
    Ok(())
}

#[test]
fn other_files_are_refused(rt: HostRuntime) -> Result<(), Fail> {
    let alloc = rt.alloc();
    // Text, a file for one server too few, and one for one too many.
    let rows: [(&[&[u8]], u32); 3] = [(&[b"hello"], 1), (&[&LEFT], 2), (&[&LEFT, &LEFT], 1)];
    for (each, servers) in rows {
        let (status, said) = said_by(rt, alloc, files(alloc, each)?, servers, GET)?;
        assert_eq!(rt; status, 9);
        assert!(rt; said.is_empty());
    }
    Ok(())
}
