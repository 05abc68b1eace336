//! The records of what is found.

ghost use Rattle.std.specs.Prelude.{◌≡◌, ◌<◌, ◌≤◌, ◌∷◌, [], true, IfOk, bytes_eq, length, map, option_map};
ghost use Rattle.std.specs.Char.{is_ascii_digit};
ghost use Rattle.std.specs.Option.{option_copied};
ghost use Rattle.std.specs.List.{list_any};
ghost use Rattle.dns_service.specs.Instances as spec;
ghost use Rattle.dns_service.specs.Instances.{address_record, addresses_of, distinct_after, hex_text, host_of, ipv4_of, is_label, record_of, records_of, service_record, service_record_of, services_of, target_named, target_of};

use crate::matches::Found;
use cat_model::lists::{chosen, copy_of, made};
use cat_model::{Bytes, Instance, List, Memory, Text};
use memchr::memchr;
use std::alloc::Global;

// ---- addresses

fn is_digit(byte: u8) -> bool
    ensures digit { result ≡ is_ascii_digit byte }
    ensures bounds { result ≡ true → (48 ≤ byte) × (byte ≤ 57) }
{
    byte.is_ascii_digit()
}

/// A number of at most three digits and at most 255.
fn octet(digits: &[u8]) -> Option<u8>
    ensures { result ≡ spec.octet_of digits.now }
{
    match digits {
        [x] => { if is_digit(*x) { Some(*x - 48) } else { None } }
        [x, y] => {
            if is_digit(*x) && is_digit(*y) && *x != b'0' {
                Some((*x - 48) * 10 + (*y - 48))
            } else {
                None
            }
        }
        [x, y, z] => {
            if is_digit(*x) && is_digit(*y) && is_digit(*z) && *x != b'0' {
                let value = u16::from(*x - 48) * 100 + u16::from(*y - 48) * 10 + u16::from(*z - 48);
                if value <= 255 {
                    Some(value as u8)
                } else {
                    None
                }
            } else {
                None
            }
        }
        _ => None,
    }
}

/// The first part of a text between points, and what follows it.
fn cut(bytes: &[u8]) -> (&[u8], Option<&[u8]>)
    ensures { spec.parts_of bytes.now ≡ result.0.now ∷ spec.parts_in (option_copied result.1) }
{
    match memchr(b'.', bytes) {
        Some(end) => (&bytes[..end], Some(&bytes[end + 1..])),
        None => (bytes, None),
    }
}

/// The bytes of an address.
#[tactic(auto, unfolding(crate::specs::Instances::ipv4_of), using(crate::proofs::Points::octets_more))]
fn ipv4(text: &[u8]) -> Option<[u8; 4]>
    ensures { option_map (λ a. a) result ≡ ipv4_of text.now }
{
    let (w, rest) = cut(text);
    let (x, rest) = cut(rest?);
    let (y, rest) = cut(rest?);
    let (z, rest) = cut(rest?);
    match rest {
        Some(_) => None,
        None => Some([octet(w)?, octet(x)?, octet(y)?, octet(z)?]),
    }
}

fn address(alloc: Global, text: &Text) -> Result<Option<Bytes>, Memory>
    ensures { IfOk result (λ found. found ≡ ipv4_of text.now) }
{
    match ipv4(text.as_str().as_bytes()) {
        Some(bytes) => Ok(Some(Bytes::new(alloc, &bytes)?)),
        None => Ok(None),
    }
}

/// The address of an instance, or of its node where it has none.
fn host(x: &Instance) -> &Text
    ensures { result.now ≡ host_of x.now }
{
    if x.service.address.len() == 0 {
        &x.node.address
    } else {
        &x.service.address
    }
}

fn addresses(alloc: Global, found: &Found) -> Result<List<Bytes>, Memory>
    ensures { IfOk result (λ l. l ≡ addresses_of found.now) }
{
    match found {
        Found::Instances(all) => chosen(alloc, all.as_slice(), |x| address(alloc, host(x))),
        Found::Node(row) => {
            let mut one = List::new(alloc);
            if let Some(bytes) = address(alloc, &row.address)? {
                one.push(bytes)?;
            }
            Ok(one)
        }
        Found::Address(bytes) => {
            let mut one = List::new(alloc);
            one.push(copy_of(bytes)?)?;
            Ok(one)
        }
    }
}

fn is_listed(all: &[Bytes], one: &Bytes) -> bool
    ensures { result ≡ list_any (bytes_eq one.now) all.now }
{
    all.iter().any(|x| one.as_slice() == x.as_slice())
}

/// Each one where it comes first.
fn distinct(alloc: Global, all: &[Bytes]) -> Result<List<Bytes>, Memory>
    ensures { IfOk result (λ l. l ≡ distinct_after [] all.now) }
{
    let mut found = List::new(alloc);
    for x in all {
        if !is_listed(found.as_slice(), x) {
            found.push(copy_of(x)?)?;
        }
    }
    Ok(found)
}

// ---- records

/// A number as two bytes, the first the more significant.
pub(crate) fn two_bytes(n: usize) -> [u8; 2]
    ensures { result ≡ spec.two_bytes n }
{
    [(n / 256 % 256) as u8, (n % 256) as u8]
}

fn record(alloc: Global, kind: u8, content: &[u8]) -> Result<Bytes, Memory>
    ensures { IfOk result (λ b. b ≡ record_of kind content.now) }
{
    let [high, low] = two_bytes(content.len());
    let mut bytes = Bytes::new(alloc, &[192, 12, 0, kind, 0, 1, 0, 0, 0, 0, high, low])?;
    bytes.extend(content)?;
    Ok(bytes)
}

fn hex(n: u8) -> u8
    requires { n < 16 }
    ensures { result ≡ spec.hex_of n }
{
    if n <= 9 { 48 + n } else { 87 + n }
}

/// The hexadecimal digits of four bytes.
fn hex_digits(bytes: [u8; 4]) -> [u8; 8]
    ensures { result ≡ hex_text bytes }
{
    let [a, b, c, d] = bytes;
    [
        hex(a / 16),
        hex(a % 16),
        hex(b / 16),
        hex(b % 16),
        hex(c / 16),
        hex(c % 16),
        hex(d / 16),
        hex(d % 16),
    ]
}

fn is_point(byte: u8) -> bool
    ensures { result ≡ spec.is_point byte }
{
    byte == b'.'
}

fn has_point(name: &[u8]) -> bool
    ensures { result ≡ list_any spec.is_point name.now }
{
    name.iter().any(|byte| is_point(*byte))
}

/// Whether a name can be a label.
fn is_label_text(name: &[u8]) -> bool
    ensures value { result ≡ is_label name.now }
    ensures short { result ≡ true → length name.now ≤ 63 }
{
    name.len() <= 63 && !has_point(name)
}

fn target(alloc: Global, first: &[u8], behind: &[u8]) -> Result<Bytes, Memory>
    requires { length first.now ≤ 63 }
    ensures { IfOk result (λ b. b ≡ target_of first.now behind.now) }
{
    let mut name = Bytes::new(alloc, &[first.len() as u8])?;
    name.extend(first)?;
    name.extend(behind)?;
    Ok(name)
}

/// The name of an address, or of a node where there is none.
fn target_for(alloc: Global, node: &[u8], address: Option<[u8; 4]>) -> Result<Option<Bytes>, Memory>
    ensures { IfOk result (λ found. found ≡ target_named node.now (option_map (λ a. a) address)) }
{
    match address {
        Some(bytes) => {
            let digits = hex_digits(bytes);
            Ok(Some(target(alloc, &digits, b"\x04addr\x03dc1\x06consul\x00")?))
        }
        None => {
            if is_label_text(node) {
                Ok(Some(target(alloc, node, b"\x04node\x03dc1\x06consul\x00")?))
            } else {
                Ok(None)
            }
        }
    }
}

fn service(alloc: Global, port: u16, target: &[u8]) -> Result<Bytes, Memory>
    ensures { IfOk result (λ b. b ≡ service_record port target.now) }
{
    let [high, low] = two_bytes(usize::from(port));
    let mut content = Bytes::new(alloc, &[0, 1, 0, 1, high, low])?;
    content.extend(target)?;
    record(alloc, 33, content.as_slice())
}

fn service_of(alloc: Global, x: &Instance) -> Result<Option<Bytes>, Memory>
    ensures { IfOk result (λ found. found ≡ service_record_of x.now) }
{
    let node = x.service.node.as_str().as_bytes();
    let own = ipv4(x.service.address.as_str().as_bytes());
    match target_for(alloc, node, own)? {
        Some(target) => Ok(Some(service(alloc, x.service.port, target.as_slice())?)),
        None => Ok(None),
    }
}

fn services(alloc: Global, found: &Found) -> Result<List<Bytes>, Memory>
    ensures { IfOk result (λ l. l ≡ services_of found.now) }
{
    match found {
        Found::Instances(all) => chosen(alloc, all.as_slice(), |x| service_of(alloc, x)),
        _ => Ok(List::new(alloc)),
    }
}

fn address_record_of(alloc: Global, bytes: &Bytes) -> Result<Bytes, Memory>
    ensures { IfOk result (λ b. b ≡ address_record bytes.now) }
{
    record(alloc, 1, bytes.as_slice())
}

fn address_records(alloc: Global, found: &Found) -> Result<List<Bytes>, Memory>
    ensures { IfOk result (λ l. l ≡ map address_record (distinct_after [] (addresses_of found.now))) }
{
    let all = addresses(alloc, found)?;
    let all = distinct(alloc, all.as_slice())?;
    made(
        alloc,
        all.as_slice(),
        |bytes| address_record_of(alloc, bytes),
    )
}

/// The records of that type.
#[tactic(auto, unfolding(crate::specs::Instances::records_of))]
pub(crate) fn records(alloc: Global, kind: u16, found: &Found) -> Result<List<Bytes>, Memory>
    ensures { IfOk result (λ l. l ≡ records_of kind found.now) }
{
    if kind == 1 {
        address_records(alloc, found)
    } else if kind == 33 {
        services(alloc, found)
    } else {
        Ok(List::new(alloc))
    }
}
