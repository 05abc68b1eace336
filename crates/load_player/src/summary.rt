ghost use Rattle.std.specs.Prelude.{◌≡◌, ◌+◌, ◌-◌, ◌<◌, ◌^◌, ◌++◌, IfOk, OnOk, cond};
ghost use Rattle.std.specs.Fmt.{decimal};
ghost use Rattle.load_player.specs.Summary as spec;

use crate::method::{Method, method_of};
use cat_model::Memory;
use rand_core::SeedableRng;
use rand_core::utils::NextWord;
use rand_pcg::Lcg64Xsh32;
use std::alloc::Global;

// How many requests of a load have each method.
#[derive(Clone, Copy)]
struct Counts {
    puts: u32,
    gets: u32,
    deletes: u32,
}

/// The line that says of a load how many requests it has, in all and by their methods, how many reads found a row, and
/// how long the agreed log is.
pub fn summarize(
    alloc: Global,
    seed: u64,
    size: u32,
    found: u64,
    log: u64,
) -> Result<Vec<u8>, Memory>
    ensures { IfOk result (λ text. text.items ≡ spec.summary_text seed size found log) }
{
    let Counts {
        puts,
        gets,
        deletes,
    } = count_methods(seed, size);
    let mut text = Vec::new(alloc);
    put_count(alloc, &mut text, b"requests ", u64::from(size))?;
    put_count(alloc, &mut text, b" puts ", u64::from(puts))?;
    put_count(alloc, &mut text, b" gets ", u64::from(gets))?;
    put_count(alloc, &mut text, b" found ", found)?;
    put_count(alloc, &mut text, b" deletes ", u64::from(deletes))?;
    put_count(alloc, &mut text, b" log ", log)?;
    text.extend_from_slice(b"\n")?;
    Ok(text)
}

// Puts a name and a number last.
fn put_count(alloc: Global, text: &mut Vec<u8>, name: &[u8], count: u64) -> Result<(), Memory>
    ensures { OnOk result (text.new.items ≡ text.old.items ++ name.now ++ decimal count) }
{
    text.extend_from_slice(name)?;
    text.extend_from_slice(format!(in alloc; "{count}")?.as_bytes())?;
    Ok(())
}

// How many requests of the load have each method.
fn count_methods(seed: u64, size: u32) -> Counts
    ensures puts { result.puts ≡ spec.requests_by spec.is_put seed size }
    ensures gets { result.gets ≡ spec.requests_by spec.is_get seed size }
    ensures deletes { result.deletes ≡ spec.requests_by spec.is_delete seed size }
{
    let mut counts = Counts {
        puts: 0,
        gets: 0,
        deletes: 0,
    };
    let mut words = Lcg64Xsh32::seed_from_u64(seed);
    let mut done = 0;
    while done < size {
        done += 1;
        counts = counted(counts, method_of(words.next_word()));
    }
    counts
}

// The counts with one more request.
fn counted(counts: Counts, method: Method) -> Counts
    requires { counts.puts + counts.gets + counts.deletes < 2 ^ 32 - 1 }
    ensures puts { result.puts ≡ counts.puts + cond (spec.is_put method) 1 0 }
    ensures gets { result.gets ≡ counts.gets + cond (spec.is_get method) 1 0 }
    ensures deletes { result.deletes ≡ counts.deletes + cond (spec.is_delete method) 1 0 }
{
    match method {
        Method::Put => Counts {
            puts: counts.puts + 1,
            ..counts
        },
        Method::Get => Counts {
            gets: counts.gets + 1,
            ..counts
        },
        Method::Delete => Counts {
            deletes: counts.deletes + 1,
            ..counts
        },
    }
}
