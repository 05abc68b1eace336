use crate::{Frame, FrameFed, FrameReader, GotFrame};
use raft_model::Message;
use std::test::Fail;

// What a reader at server 1 of 3 answers to bytes that come one by one, and how many frames it gave before.
fn place(rt: &HostRuntime, bytes: &[u8]) -> Result<(u32, Option<u64>), Fail> {
    let mut reader = FrameReader::new(rt.alloc(), 1, 3)?;
    let mut frames = 0u32;
    for byte in bytes {
        let FrameFed { used: _, got } = reader.feed(&[*byte]);
        match got {
            GotFrame::Bad { at } => return Ok((frames, Some(at))),
            GotFrame::Frame(_) => frames = frames.saturating_add(1),
            GotFrame::More | GotFrame::Memory => {}
        }
    }
    Ok((frames, None))
}

// Whether server 1 of three reads from these bytes that server 2 gives it its vote for term 1.
fn is_vote_of_two(rt: &HostRuntime, bytes: &[u8]) -> Result<bool, Fail> {
    let mut reader = FrameReader::new(rt.alloc(), 1, 3)?;
    Ok(match reader.feed(bytes).got {
        GotFrame::Frame(
            Frame::Peer {
                sender: 2,
                message: Message::Vote {
                    term: 1,
                    granted: true,
                },
            },
        ) => true,
        _ => false,
    })
}

#[test]
fn rows(rt: HostRuntime) -> Result<(), Fail> {
    assert!(rt; is_vote_of_two(&rt, &[0, 0, 0, 4, 2, 2, 1, 1])?);
    assert_eq!(rt; place(&rt, &[0, 0, 0, 0])?, (0, Some(3)));
    assert_eq!(rt; place(&rt, &[0, 0, 0, 1, 0x0b])?, (0, Some(4)));
    Ok(())
}

#[test]
fn cut_anywhere(rt: HostRuntime) -> Result<(), Fail> {
    let vote = [0, 0, 0, 4, 2, 2, 1, 1];
    let status = [0, 0, 0, 1, 7];
    assert_eq!(rt; place(&rt, &vote)?, (1, None));
    assert_eq!(rt;
        place(&rt, &[0, 0, 0, 4, 2, 2, 1, 1, 0, 0, 0, 1, 7, 5])?,
        (2, Some(13))
    );
    assert_eq!(rt; place(&rt, &status)?, (1, None));

    // The sender is the reader, or no server.
    assert_eq!(rt; place(&rt, &[0, 0, 0, 4, 2, 1, 1, 1])?, (0, Some(5)));
    assert_eq!(rt; place(&rt, &[0, 0, 0, 4, 2, 4, 1, 1])?, (0, Some(5)));

    // An answer, and lengths beyond the limit.
    assert_eq!(rt; place(&rt, &[0, 0, 0, 3, 8, 1, 1])?, (0, Some(4)));
    assert_eq!(rt; place(&rt, &[4, 0x10, 0, 1])?, (0, Some(3)));
    assert_eq!(rt; place(&rt, &[4, 0x11])?, (0, Some(1)));
    Ok(())
}
