//! The reply to a packet.

ghost use Rattle.std.specs.Prelude.{◌≡◌, ◌+◌, ◌≤◌, IfOk, length, option_and_then};
ghost use mathlib.Core.List.{IsPrefix};
ghost use Rattle.dns_service.specs.Instances.{found_at};
ghost use Rattle.dns_service.specs.Reading.{answers_at};
ghost use Rattle.dns_service.specs.Replies as spec;
ghost use Rattle.dns_service.specs.Replies.{dns_reply, reply_asked};

use crate::CatalogReader;
use crate::matches::{Found, found_under};
use crate::question::{Question, number_at, question_in};
use crate::records::records;
use crate::reply::{answered, has_no_reply, opcode, refused, without_question};
use crate::sought::{Sought, are_same_letters, sought_in};
use cat_model::{Bytes, Memory, Steps};
use std::alloc::Global;
use std::sync::ledger::Ledger;

fn of_found(
    alloc: Global,
    packet: &[u8],
    question: &Question,
    found: &Option<Found>,
) -> Result<Bytes, Memory>
    requires { 12 ≤ length packet.now }
    ensures { IfOk result (λ b. b ≡ spec.reply_found packet.now question.now found.now) }
{
    match found {
        None => refused(alloc, packet, 3, question.bytes.as_slice()),
        Some(found) => {
            let records = records(alloc, question.kind, found)?;
            answered(alloc, packet, question.bytes.as_slice(), records.as_slice())
        }
    }
}

/// What there is, where a name asks for something.
fn found_for<C: CatalogReader, L: Ledger>(
    alloc: Global,
    catalog: &mut C,
    sought: Option<Sought>,
    steps: &mut Steps<L>,
) -> Result<Option<Found>, Memory>
    ensures found { IfOk result (λ found. found ≡ option_and_then (found_at (answers_at (C.commands catalog.new))) sought) }
    ensures grown { IsPrefix (C.commands catalog.old) (C.commands catalog.new) }
    ensures cost { steps.new ≤ steps.old + 1 }
{
    match sought {
        Some(sought) => found_under(alloc, catalog, sought, steps),
        None => Ok(None),
    }
}

fn is_of_consul(labels: &[Bytes]) -> bool
    ensures { result ≡ spec.is_of_consul labels.now }
{
    match labels.split_first() {
        Some((last, _)) => are_same_letters(last.as_slice(), b"consul"),
        None => false,
    }
}

fn behind_first(labels: &[Bytes]) -> &[Bytes]
    ensures { result.now ≡ spec.behind_first labels.now }
{
    match labels.split_first() {
        Some((_, more)) => more,
        None => labels,
    }
}

fn of_question<C: CatalogReader, L: Ledger>(
    alloc: Global,
    catalog: &mut C,
    packet: &[u8],
    question: Option<Question>,
    steps: &mut Steps<L>,
) -> Result<Bytes, Memory>
    requires { 12 ≤ length packet.now }
    ensures reply { IfOk result (λ b. b ≡ reply_asked (answers_at (C.commands catalog.new)) packet.now question) }
    ensures grown { IsPrefix (C.commands catalog.old) (C.commands catalog.new) }
    ensures cost { steps.new ≤ steps.old + 1 }
{
    let Some(question) = question else {
        return without_question(alloc, packet, 1);
    };
    let labels = question.labels.as_slice();
    if question.class == 1 && is_of_consul(labels) {
        let sought = sought_in(alloc, behind_first(labels))?;
        let found = found_for(alloc, catalog, sought, steps)?;
        of_found(alloc, packet, &question, &found)
    } else {
        refused(alloc, packet, 5, question.bytes.as_slice())
    }
}

/// The reply to a packet over the catalog that the reader reads. None is for a packet that has no reply: one that is
/// shorter than a header, or a reply itself.
///
/// The reader is asked once at most. What is allocated is made of bytes that are there, and never of a length that the
/// packet announces.
///
/// # Errors
///
/// Lack of memory, here or in the reader.
#[tactic(auto, unfolding(crate::specs::Replies::dns_reply))]
pub fn answer_packet<C: CatalogReader, L: Ledger>(
    alloc: Global,
    catalog: &mut C,
    packet: &[u8],
    steps: &mut Steps<L>,
) -> Result<Option<Bytes>, Memory>
    ensures reply { IfOk result (λ r. r ≡ dns_reply (answers_at (C.commands catalog.new)) packet.now) }
    ensures grown { IsPrefix (C.commands catalog.old) (C.commands catalog.new) }
    ensures cost { steps.new ≤ steps.old + 1 }
{
    if has_no_reply(packet) {
        return Ok(None);
    }
    if opcode(packet) != 0 {
        return Ok(Some(without_question(alloc, packet, 4)?));
    }
    if number_at(4, packet) != 1 {
        return Ok(Some(without_question(alloc, packet, 1)?));
    }
    let question = question_in(alloc, &packet[12..])?;
    Ok(Some(of_question(alloc, catalog, packet, question, steps)?))
}
