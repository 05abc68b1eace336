ghost use Rattle.std.specs.Prelude.{◌≡◌, ◌≢◌, ◌<◌, ◌≤◌, ◌^◌, ◌∷◌, ◌++◌, IfSome, MatchOption, ℕ, List, [], Option, None, codes, map};
ghost use Rattle.std.specs.Option.{option_copied};
ghost use Rattle.http_front.specs.declared.options.Dns.{Dns as SpecDns};
ghost use Rattle.http_front.specs.declared.options.Options.{Options as SpecOptions};
ghost use Rattle.http_front.specs.Options.{AreAdded, AreNumbered, AreWritten, AsksFor, IsCount, IsDns, IsUntold, IsWithin, Say, Writes, adding_words, told_words};

use script_lang::{Bounds, number_in};
use serve_outside::Folder;

/// How questions of names (DNS) are answered, over UDP.
#[derive(Clone, Copy, Debug, PartialEq, Eq)]
pub struct Dns {
    /// 1 to 65,535, on 127.0.0.1.
    pub port: u16,
    /// How many packets are answered in all, 1 to 1,000,000. Where none is told, all that come are.
    pub packets: Option<u32>,
}

/// How a server is to be made.
#[derive(Drop)]
pub struct Options<'a> {
    /// 1 to 7.
    pub servers: u32,
    /// 1 to 64.
    pub agents: u32,
    /// 1 to 65,535, on 127.0.0.1.
    pub port: u16,
    /// How many connections are served in all, 1 to 10,000. Where none is told, all that come are.
    pub connections: Option<u32>,
    /// Where the servers' logs are kept. Without a folder they are lost when the process ends.
    pub folder: Option<Folder<'a>>,
    /// Whether and how questions of names are answered.
    pub dns: Option<Dns>,
}

// What may be left out of the words.
#[derive(Drop)]
struct Added<'a> {
    connections: Option<u32>,
    folder: Option<Folder<'a>>,
    dns: Option<Dns>,
}

// The words that tell it, where they stand.
#[derive(Clone, Copy)]
struct Told<'a> {
    count: Option<&'a str>,
    folder: Option<&'a str>,
    port: Option<&'a str>,
    packets: Option<&'a str>,
}

// The number that a word writes, of those from 1 to `most`.
fn number_up_to(most: u64, word: &str) -> Option<u64>
    ensures written { MatchOption result ((n : ℕ) → Writes word.now most n → ⊥) (Writes word.now most) }
    ensures bounds { IfSome result (λ n. (1 ≤ n) × (n ≤ most)) }
{
    number_in(Bounds { least: 1, most }, word.as_bytes()).ok()
}

// The count that a word writes, or that there is none without a word.
fn count_in(most: u64, word: Option<&str>) -> Option<Option<u32>>
    requires { most < 2 ^ 32 }
    ensures { MatchOption result ((count : Option ℕ) → IsCount most (option_copied word.entry) count → ⊥) (IsCount most (option_copied word.entry)) }
{
    match word {
        None => Some(None),
        Some(word) => {
            let count = number_up_to(most, word)?;
            Some(Some(count as u32))
        }
    }
}

// The folder of this name, if that is one, or that there is none without a name.
fn folder_in<'a>(name: Option<&'a str>) -> Option<Option<Folder<'a>>>
    ensures { MatchOption result (IfSome (option_copied name.entry) (λ name. name ≢ []) → ⊥) (λ folder. (folder ≡ option_copied name.entry) × IfSome folder (λ name. name ≢ [])) }
{
    match name {
        None => Some(None),
        Some("") => None,
        Some(name) => Some(Some(Folder::new(name))),
    }
}

// The port that this word writes, and the count of its packets.
fn dns_at(port: &str, packets: Option<&str>) -> Option<Dns>
    ensures { MatchOption result
        ((dns : SpecDns) → Writes port.now 65535 dns.port → IsCount 1000000 (option_copied packets.entry) dns.packets → ⊥)
        (λ dns. Writes port.now 65535 dns.port × IsCount 1000000 (option_copied packets.entry) dns.packets) }
{
    let port = number_up_to(65_535, port)?;
    let packets = count_in(1_000_000, packets)?;
    Some(Dns {
        port: port as u16,
        packets,
    })
}

// What these words say of questions of names, beside that for the count of connections.
fn dns_in(count: Option<&str>, port: Option<&str>, packets: Option<&str>) -> Option<Option<Dns>>
    ensures { MatchOption result
        ((dns : Option SpecDns) → IsDns (option_copied count.entry) (option_copied port.entry) (option_copied packets.entry) dns → ⊥)
        (IsDns (option_copied count.entry) (option_copied port.entry) (option_copied packets.entry)) }
{
    match (port, packets) {
        (None, None) => Some(None),
        (None, Some(_)) => None,
        (Some(port), packets) => {
            if packets.is_none() && count.is_some() {
                return None;
            }
            let dns = dns_at(port, packets)?;
            Some(Some(dns))
        }
    }
}

// What these words add to a server's numbers.
fn added_in<'a>(told: Told<'a>) -> Option<Added<'a>>
    ensures { MatchOption result
        ((connections : Option ℕ) (dns : Option SpecDns) → Say (option_copied told.entry.count) (option_copied told.entry.folder) (option_copied told.entry.port) (option_copied told.entry.packets) connections dns → ⊥)
        (λ added. Say (option_copied told.entry.count) (option_copied told.entry.folder) (option_copied told.entry.port) (option_copied told.entry.packets) added.connections added.dns × (added.folder ≡ option_copied told.entry.folder)) }
{
    let connections = count_in(10_000, told.count)?;
    let folder = folder_in(told.folder)?;
    let dns = dns_in(told.count, told.port, told.packets)?;
    Some(Added {
        connections,
        folder,
        dns,
    })
}

// The word that this name tells, if the words begin with it, and the words behind it.
fn split_told<'b, 'a>(name: &str, words: &'b [&'a str]) -> (Option<&'a str>, &'b [&'a str])
    ensures told { map (λ w. w.now) words.now ≡ told_words name.now (option_copied result.0) ++ map (λ w. w.now) result.1.now }
    ensures untold { result.0 ≡ None → IsUntold name.now (map (λ w. w.now) words.now) }
{
    if words.len() < 2 || words[0] != name {
        return (None, words);
    }
    let (front, rest) = words.split_at(2);
    (Some(front[1]), rest)
}

// What these words tell of what may be left out, if they tell nothing else.
fn told_in<'a>(words: &[&'a str]) -> Option<Told<'a>>
    ensures { MatchOption result
        ((count folder port packets : Option (List ℕ)) → map (λ w. w.now) words.now ≡ adding_words count folder port packets → ⊥)
        (λ told. map (λ w. w.now) words.now ≡ adding_words (option_copied told.count) (option_copied told.folder) (option_copied told.port) (option_copied told.packets)) }
{
    let (count, rest) = split_told("--connections", words);
    let (folder, rest) = split_told("--keep", rest);
    let (port, rest) = split_told("--dns", rest);
    let (packets, rest) = split_told("--packets", rest);
    if !rest.is_empty() {
        return None;
    }
    Some(Told {
        count,
        folder,
        port,
        packets,
    })
}

// What these words add to a server's numbers, if they are such words.
fn added_of<'a>(words: &[&'a str]) -> Option<Added<'a>>
    ensures added { MatchOption result
        ((connections : Option ℕ) (folder : Option (List ℕ)) (dns : Option SpecDns) → AreAdded (map (λ w. w.now) words.now) connections folder dns → ⊥)
        (λ added. AreAdded (map (λ w. w.now) words.now) added.connections added.folder added.dns) }
{
    match told_in(words) {
        Some(told) => added_in(told),
        None => None,
    }
}

// A server with the numbers that these words write, to which nothing is added.
fn numbered<'a>(servers: &str, agents: &str, port: &str) -> Option<Options<'a>>
    ensures written { MatchOption result
        ((o : SpecOptions) → AreWritten servers.now agents.now port.now o → ⊥)
        (AreWritten servers.now agents.now port.now) }
    ensures bounds { IfSome result IsWithin }
{
    let servers = number_up_to(7, servers)?;
    let agents = number_up_to(64, agents)?;
    let port = number_up_to(65_535, port)?;
    Some(Options {
        servers: servers as u32,
        agents: agents as u32,
        port: port as u16,
        connections: None,
        folder: None,
        dns: None,
    })
}

// A server with the numbers that these words give, to which nothing is added.
fn options_in<'a>(words: &[&str]) -> Option<Options<'a>>
    ensures numbers { MatchOption result ((o : SpecOptions) → AreNumbered (map (λ w. w.now) words.now) o → ⊥) (AreNumbered (map (λ w. w.now) words.now)) }
    ensures bounds { IfSome result IsWithin }
{
    match words {
        [
            "serve",
            "--servers",
            servers,
            "--agents",
            agents,
            "--port",
            port,
        ] => numbered(servers, agents, port),
        _ => None,
    }
}

// The same server, to which this is added.
fn with_added<'a>(options: Options<'a>, added: Added<'a>) -> Options<'a>
    ensures { result ≡ record options.entry { connections = added.entry.connections; folder = added.entry.folder; dns = added.entry.dns } }
{
    let Added {
        connections,
        folder,
        dns,
    } = added;
    Options {
        connections,
        folder,
        dns,
        ..options
    }
}

/// The options of a server, if the words of the command line ask for one.
pub fn options_of<'a>(words: &[&'a str]) -> Option<Options<'a>>
    ensures asked { MatchOption result ((o : SpecOptions) → AsksFor (map (λ w. w.now) words.now) o → ⊥) (AsksFor (map (λ w. w.now) words.now)) }
    ensures bounds { IfSome result IsWithin }
{
    if words.len() < 7 {
        return None;
    }
    let (front, rest) = words.split_at(7);
    let Some(options) = options_in(front) else {
        return None;
    };
    match added_of(rest) {
        Some(added) => Some(with_added(options, added)),
        None => None,
    }
}
