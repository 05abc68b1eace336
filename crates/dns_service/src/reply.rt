//! Replies as bytes. RFC 1035, section 4.1.

ghost use Rattle.std.specs.Prelude.{◌≡◌, ◌<◌, ◌≤◌, ◌∷◌, ◌++◌, IfOk, false, length, take, slice_index};
ghost use Rattle.cat_model.specs.Lists.{flat};
ghost use Rattle.dns_service.specs.Replies as spec;
ghost use Rattle.dns_service.specs.Replies.{fitting};

use crate::records::two_bytes;
use cat_model::{Bytes, Memory};
use std::alloc::Global;

/// Whether it has no reply: it is too short for a header, or a reply itself.
pub(crate) fn has_no_reply(packet: &[u8]) -> bool
    ensures value { result ≡ spec.has_no_reply packet.now }
    ensures long { result ≡ false → 12 ≤ length packet.now }
{
    packet.len() < 12 || packet[2] >= 128
}

pub(crate) fn opcode(packet: &[u8]) -> u8
    requires { 12 ≤ length packet.now }
    ensures value { result ≡ spec.opcode packet.now }
    ensures small { result < 16 }
{
    packet[2] / 8 % 16
}

fn bit(value: bool) -> u8
    ensures value { result ≡ spec.bit value }
    ensures small { result < 2 }
{
    if value { 1 } else { 0 }
}

/// The second two bytes of a reply: OPCODE and RD as asked, QR and AA 1, RA and Z 0, and TC where records are cut off.
fn flags(packet: &[u8], code: u8, cut: bool) -> [u8; 2]
    requires { 12 ≤ length packet.now }
    ensures { result ≡ spec.flags packet.now code cut }
{
    [
        132 + opcode(packet) * 8 + bit(cut) * 2 + packet[2] % 2,
        code,
    ]
}

/// The counts of questions and of records.
fn counts(questions: u8, answers: usize) -> [u8; 8]
    ensures { result ≡ spec.counts questions answers }
{
    let [high, low] = two_bytes(answers);
    [0, questions, high, low, 0, 0, 0, 0]
}

/// The header of a reply, with the ID that was asked.
fn head(alloc: Global, packet: &[u8], flags: [u8; 2], counts: [u8; 8]) -> Result<Bytes, Memory>
    requires { 12 ≤ length packet.now }
    ensures { IfOk result (λ b. b ≡ slice_index packet.now 0 ∷ slice_index packet.now 1 ∷ (flags ++ counts)) }
{
    let mut bytes = Bytes::new(alloc, &packet[..2])?;
    bytes.extend(&flags)?;
    bytes.extend(&counts)?;
    Ok(bytes)
}

/// A reply without a question.
pub(crate) fn without_question(alloc: Global, packet: &[u8], code: u8) -> Result<Bytes, Memory>
    requires { 12 ≤ length packet.now }
    ensures { IfOk result (λ b. b ≡ spec.without_question packet.now code) }
{
    head(alloc, packet, flags(packet, code, false), counts(0, 0))
}

/// A reply with the question alone.
pub(crate) fn refused(
    alloc: Global,
    packet: &[u8],
    code: u8,
    question: &[u8],
) -> Result<Bytes, Memory>
    requires { 12 ≤ length packet.now }
    ensures { IfOk result (λ b. b ≡ spec.refused packet.now code question.now) }
{
    let mut reply = head(alloc, packet, flags(packet, code, false), counts(1, 0))?;
    reply.extend(question)?;
    Ok(reply)
}

/// How many of the records fit into so many bytes, each with those before it.
fn fitting_count(room: usize, records: &[Bytes]) -> usize
    ensures fits { take result records.now ≡ fitting room records.now }
    ensures few { result ≤ length records.now }
{
    let mut left = room;
    for (i, record) in records.iter().enumerate() {
        if record.len() > left {
            return i;
        }
        left -= record.len();
    }
    records.len()
}

/// The bytes with all these records behind them.
fn with_records(bytes: Bytes, records: &[Bytes]) -> Result<Bytes, Memory>
    ensures { IfOk result (λ b. b ≡ bytes ++ flat (λ r. r) records.now) }
{
    let mut reply = bytes;
    for record in records {
        reply.extend(record.as_slice())?;
    }
    Ok(reply)
}

/// The reply with the question and these records, of so many.
fn with_sent(
    alloc: Global,
    packet: &[u8],
    question: &[u8],
    sent: &[Bytes],
    all: usize,
) -> Result<Bytes, Memory>
    requires { 12 ≤ length packet.now }
    ensures { IfOk result (λ b. b ≡ spec.with_sent packet.now question.now sent.now all) }
{
    let mut reply = head(
        alloc,
        packet,
        flags(packet, 0, sent.len() < all),
        counts(1, sent.len()),
    )?;
    reply.extend(question)?;
    with_records(reply, sent)
}

/// The reply with the question and as many records as fit.
pub(crate) fn answered(
    alloc: Global,
    packet: &[u8],
    question: &[u8],
    records: &[Bytes],
) -> Result<Bytes, Memory>
    requires { 12 ≤ length packet.now }
    ensures { IfOk result (λ b. b ≡ spec.answered packet.now question.now records.now) }
{
    let room = 500usize.saturating_sub(question.len());
    let count = fitting_count(room, records);
    with_sent(alloc, packet, question, &records[..count], records.len())
}
