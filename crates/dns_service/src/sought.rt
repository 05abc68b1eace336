//! What a name asks for.

ghost use Rattle.std.specs.Prelude.{◌≡◌, ◌<◌, IfOk, IfSome, option_map};
ghost use Rattle.dns_service.specs.Outcomes.{Gives};
ghost use Rattle.dns_service.specs.Sought as spec;
ghost use Rattle.dns_service.specs.Sought.{lower, same_letters};

use cat_model::lists::copy_of;
use cat_model::{Bytes, List, Memory, Text, Texts};
use std::alloc::Global;

/// What is asked for.
#[derive(Debug, Drop)]
pub(crate) enum Sought {
    /// The instances of the service of this name, with this tag where there is one.
    Service(Text, Option<Text>),
    /// The node of this name.
    Node(Text),
    /// The address of these four bytes.
    Address(Bytes),
}

/// Whether the bytes are equal but for ASCII case.
pub(crate) fn are_same_letters(a: &[u8], b: &[u8]) -> bool
    ensures { result ≡ same_letters a.now b.now }
{
    a.eq_ignore_ascii_case(b)
}

fn is(label: &Text, word: &str) -> bool
    ensures { result ≡ same_letters label.now word.now }
{
    are_same_letters(label.as_str().as_bytes(), word.as_bytes())
}

/// The text in ASCII lower case.
fn lowered(alloc: Global, text: &Text) -> Result<Text, Memory>
    ensures { IfOk result (λ t. t ≡ lower text.now) }
{
    Ok(Text::from(text.as_str().to_ascii_lowercase(alloc)?))
}

fn hex_digit(digit: u8) -> Option<u8>
    ensures value { result ≡ spec.hex_digit digit }
    ensures small { IfSome result (λ n. n < 16) }
{
    match digit {
        b'0'..=b'9' => Some(digit - 48),
        b'a'..=b'f' => Some(digit - 87),
        b'A'..=b'F' => Some(digit - 55),
        _ => None,
    }
}

fn hex_byte(high: u8, low: u8) -> Option<u8>
    ensures { result ≡ spec.hex_byte (spec.hex_digit high) (spec.hex_digit low) }
{
    let high = hex_digit(high)?;
    let low = hex_digit(low)?;
    Some(high * 16 + low)
}

/// The four bytes of eight hexadecimal digits.
fn hex_address(digits: &[u8]) -> Option<[u8; 4]>
    ensures { option_map (λ a. a) result ≡ spec.hex_address digits.now }
{
    match digits {
        [a, b, c, d, e, f, g, h] => Some([
            hex_byte(*a, *b)?,
            hex_byte(*c, *d)?,
            hex_byte(*e, *f)?,
            hex_byte(*g, *h)?,
        ]),
        _ => None,
    }
}

fn address(alloc: Global, digits: &[u8]) -> Result<Option<Sought>, Memory>
    ensures { Gives (λ s. s) result (option_map Sought.Address (spec.hex_address digits.now)) }
{
    match hex_address(digits) {
        Some(bytes) => Ok(Some(Sought::Address(Bytes::new(alloc, &bytes)?))),
        None => Ok(None),
    }
}

fn of_two(alloc: Global, kind: &Text, name: &Text) -> Result<Option<Sought>, Memory>
    ensures { Gives (λ s. s) result (spec.of_two kind.now name.now) }
{
    if is(kind, "service") {
        Ok(Some(Sought::Service(lowered(alloc, name)?, None)))
    } else if is(kind, "node") {
        Ok(Some(Sought::Node(copy_of(name)?)))
    } else if is(kind, "addr") {
        address(alloc, name.as_str().as_bytes())
    } else {
        Ok(None)
    }
}

fn of_three(alloc: Global, kind: &Text, name: &Text, tag: &Text) -> Result<Option<Sought>, Memory>
    ensures { Gives (λ s. s) result (spec.of_three kind.now name.now tag.now) }
{
    if is(kind, "service") {
        let name = lowered(alloc, name)?;
        Ok(Some(Sought::Service(name, Some(copy_of(tag)?))))
    } else {
        Ok(None)
    }
}

#[tactic(auto, using(crate::proofs::Shapes::not_named))]
fn of_labels(alloc: Global, labels: &[Text]) -> Result<Option<Sought>, Memory>
    ensures { Gives (λ s. s) result (spec.of_labels labels.now) }
{
    match labels {
        [kind, name] => of_two(alloc, kind, name),
        [kind, name, tag] => of_three(alloc, kind, name, tag),
        _ => Ok(None),
    }
}

fn without_datacenter(labels: &[Text]) -> &[Text]
    ensures { result.now ≡ spec.without_datacenter labels.now }
{
    match labels.split_first() {
        Some((first, more)) if is(first, "dc1") => more,
        _ => labels,
    }
}

/// The label as a text, if it is one.
#[tactic(auto, using(crate::proofs::Shapes::text_is, crate::proofs::Shapes::text_is_not))]
fn text_if(alloc: Global, label: &Bytes) -> Result<Option<Text>, Memory>
    ensures { Gives (λ t. t) result (spec.text_if label.now) }
{
    match str::from_utf8(label.as_slice()) {
        Ok(text) => Ok(Some(Text::new(alloc, text)?)),
        Err(_) => Ok(None),
    }
}

/// The labels as texts, if each one is.
#[tactic(auto, using(crate::proofs::Shapes::more_front))]
fn texts(alloc: Global, labels: &[Bytes]) -> Result<Option<Texts>, Memory>
    ensures { Gives (λ t. t) result (spec.texts_of labels.now) }
{
    let mut found = List::new(alloc);
    for label in labels {
        match text_if(alloc, label)? {
            Some(text) => found.push(text)?,
            None => return Ok(None),
        }
    }
    Ok(Some(found))
}

/// What the labels before `consul` ask for, the last first.
#[tactic(auto, unfolding(crate::specs::Sought::sought_of))]
pub(crate) fn sought_in(alloc: Global, labels: &[Bytes]) -> Result<Option<Sought>, Memory>
    ensures { Gives (λ s. s) result (spec.sought_of labels.now) }
{
    match texts(alloc, labels)? {
        Some(labels) => of_labels(alloc, without_datacenter(labels.as_slice())),
        None => Ok(None),
    }
}
