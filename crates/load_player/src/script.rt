ghost use Rattle.std.specs.Prelude.{◌≡◌, ◌+◌, ◌*◌, ◌≤◌, ◌++◌, IfOk, OnOk, codes, length};
ghost use Rattle.std.specs.Fmt.{decimal};
ghost use Rattle.load_player.specs.LoadScript as spec;

use crate::method::{Method, method_of};
use cat_model::Memory;
use rand_core::SeedableRng;
use rand_core::utils::NextWord;
use rand_pcg::Lcg64Xsh32;
use std::alloc::Global;

/// The script of the load with this seed and so many requests.
pub fn make_load(alloc: Global, seed: u64, size: u32) -> Result<Vec<u8>, Memory>
    ensures script { IfOk result (λ script. script.items ≡ spec.load_script seed size) }
    ensures most { IfOk result (λ script. length script.items ≤ 64 * (size + 1)) }
{
    let mut script = opening(alloc, seed)?;
    let mut words = Lcg64Xsh32::seed_from_u64(seed);
    let mut number = 0;
    while number < size {
        number += 1;
        put_request(alloc, &mut script, number, words.next_word())?;
    }
    Ok(script)
}

// The lines that come before the first request.
fn opening(alloc: Global, seed: u64) -> Result<Vec<u8>, Memory>
    ensures { IfOk result (λ script. script.items ≡ codes "cluster 3 1 " ++ decimal seed ++ codes "\ntimeout 1\nsettle 64\n") }
{
    Ok(format!(in alloc; "cluster 3 1 {seed}\ntimeout 1\nsettle 64\n")?.into_bytes())
}

// Puts the request with this number and this word last, and the line that settles what it sends.
fn put_request(alloc: Global, script: &mut Vec<u8>, number: u32, word: u32) -> Result<(), Memory>
    ensures { OnOk result (script.new.items ≡ (script.old.items ++ spec.request (spec.method_of word) number (spec.key_of word)) ++ codes "\nsettle 64\n") }
{
    let line = request(alloc, method_of(word), number, word % 1000)?;
    script.extend_from_slice(&line)?;
    script.extend_from_slice(b"\nsettle 64\n")?;
    Ok(())
}

// The line of a request.
fn request(alloc: Global, method: Method, number: u32, key: u32) -> Result<Vec<u8>, Memory>
    ensures { IfOk result (λ line. line.items ≡ spec.request method number key) }
{
    match method {
        Method::Put => Ok(format!(in alloc; "http 1 PUT /v1/kv/k{key} =v{number}")?.into_bytes()),
        Method::Get => Ok(format!(in alloc; "http 1 GET /v1/kv/k{key}")?.into_bytes()),
        Method::Delete => Ok(format!(in alloc; "http 1 DELETE /v1/kv/k{key}")?.into_bytes()),
    }
}
