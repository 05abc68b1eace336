//! The numbers of the channels' lists. Channels with texts share 65,536 lists by a hash of the text.

ghost use Rattle.std.specs.Prelude.{◌≡◌, ◌<◌};
ghost use Rattle.std.specs.List.{fold};
ghost use Rattle.read_watch.specs.Buckets.{mixed, bucket_of, first_list, second_list};

use cat_model::Chan;

/// How many lists the channels share.
pub const BUCKETS: u32 = 65_536;

/// Where the hash of a prefix begins.
pub const PREFIX: u32 = 9;

/// The hash of a text with one byte more.
pub fn mixed(hash: u32, byte: u8) -> u32
    requires { hash < 65536 }
    ensures is { result ≡ mixed hash byte }
    ensures within { result < 65536 }
{
    (hash * 31 + u32::from(byte)) % BUCKETS
}

fn text_bucket(start: u32, text: &[u8]) -> u32
    requires { start < 65536 }
    ensures is { result ≡ fold mixed start text.now }
    ensures within { result < 65536 }
{
    let mut hash = start;
    for byte in text {
        hash = mixed(hash, *byte);
    }
    hash
}

/// The list of a channel.
pub fn bucket(chan: &Chan) -> u32
    ensures is { result ≡ bucket_of chan.now }
    ensures within { result < 65536 }
{
    match chan {
        Chan::Nodes => 0,
        Chan::Services => 1,
        Chan::Checks => 2,
        Chan::Sessions => 3,
        Chan::Queries => 4,
        Chan::Vanished => 5,
        Chan::Reaped => 6,
        Chan::Service(name) => text_bucket(7, name.as_str().as_bytes()),
        Chan::Key(key) => text_bucket(8, key.as_str().as_bytes()),
        Chan::Prefix(prefix) => text_bucket(PREFIX, prefix.as_str().as_bytes()),
        Chan::NodeGone => 10,
        Chan::Node(node) => text_bucket(11, node.as_str().as_bytes()),
        Chan::NodeChecks(node) => text_bucket(12, node.as_str().as_bytes()),
    }
}

/// The list of the first of these channels, or the list of those that hang on none.
pub fn first_list(chans: &[Chan]) -> u32
    ensures is { result ≡ first_list chans.now }
    ensures within { result < 65537 }
{
    match chans.split_first() {
        Some((chan, _)) => bucket(chan),
        None => BUCKETS,
    }
}

/// The list of the second of these channels, or the list of those that hang on no second one.
pub fn second_list(chans: &[Chan]) -> u32
    ensures is { result ≡ second_list chans.now }
    ensures within { result < 65537 }
{
    match chans.split_first() {
        Some((_, rest)) => first_list(rest),
        None => BUCKETS,
    }
}
