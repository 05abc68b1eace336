//! The end of a connection whose client may still send.

use std::io;
use std::io::Read;
use std::net::{Shutdown, TcpStream};
use std::time::{Clock, Duration};

/// How many milliseconds bytes that nobody reads are taken in, in all.
const LINGER_MS: u64 = 1_000;

/// How many reads take them in, at most: 4 MiB of 16,384 bytes each.
const READS: usize = 256;

// Takes in bytes that nobody reads, and says whether there may be more.
fn take_in(stream: &mut TcpStream, wait: Duration) -> io::Result<bool> {
    if wait.is_zero() {
        return Ok(false);
    }
    stream.set_read_timeout(Some(wait))?;
    Ok(stream.read(&mut [0u8; 16384])? > 0)
}

// Takes in what still comes, in a second at most.
fn take_rest<R: Clock>(rt: &R, stream: &mut TcpStream) -> io::Result<()> {
    let end = rt
        .monotonic()?
        .saturating_add(Duration::from_millis(LINGER_MS));
    for _ in 0..READS {
        let wait = end.saturating_sub(rt.monotonic()?);
        if !take_in(stream, wait)? {
            return Ok(());
        }
    }
    Ok(())
}

/// Ends the sending side, and takes in what the client still sends until it ends too, or for a second. Closed at once,
/// the stream would answer those bytes with a reset, by which the client may lose the last reply (RFC 9112, section 9.6).
pub(crate) fn linger<R: Clock>(rt: &R, mut stream: TcpStream) {
    if stream.shutdown(Shutdown::Write).is_ok() {
        let _ = take_rest(rt, &mut stream);
    }
}
