ghost use Rattle.std.specs.Prelude.{◌≡◌, ◌∷◌, [], IfOk, MatchOption};
ghost use Rattle.cluster_requests.specs.Contents.{content_of, out_of};
ghost use Rattle.script_player.specs.Found as spec;

use crate::taker::Taker;
use cat_model::{List, Memory};
use cluster_requests::{Content, Given, Out, Reply};
use filter_expr::Filter;
use outside::KeepFail;
use reply_body::written;
use std::alloc::Global;

/// The numbers of the requests that found something, in the order of their replies.
#[derive(Debug, Drop)]
pub struct Found {
    pub numbers: List<u64>,
}

// It takes of an out the number of the request, if that found something. A filter changes nothing of that.
impl Taker for Found {
    ghost use Rattle.std.specs.Prelude.{Some};
    ghost use Rattle.script_player.specs.Found.{found_in};

    ghost adds = { λ filter out. found_in out };

    ghost held = { λ found. Some found.numbers };

    ghost faults = { λ found. 0 };

    #[tactic(auto, using(crate::proofs::Written::part_none))]
    fn take(&mut self, alloc: Global, out: Out, _filter: Option<&Filter>) -> Result<(), KeepFail> {
        match number_found(alloc, out) {
            Ok(Some(number)) => match self.numbers.push(number) {
                Ok(()) => Ok(()),
                Err(Memory) => Err(KeepFail::Memory),
            },
            Ok(None) => Ok(()),
            Err(Memory) => Err(KeepFail::Memory),
        }
    }
}

// The number of the request that the out is of, if it found something. The out is let go.
fn number_found(alloc: Global, out: Out) -> Result<Option<u64>, Memory>
    ensures { IfOk result (λ n. MatchOption n (spec.found_in out ≡ []) (λ number. spec.found_in out ≡ number ∷ [])) }
{
    number_given(alloc, out.given())
}

// The same of what an out gives.
fn number_given(alloc: Global, given: &Given) -> Result<Option<u64>, Memory>
    ensures { IfOk result (λ n. MatchOption n (spec.found_in (out_of given.now) ≡ []) (λ number. spec.found_in (out_of given.now) ≡ number ∷ [])) }
{
    match given {
        Given::Replied(reply) => {
            if is_found(alloc, reply)? {
                Ok(Some(reply.number()))
            } else {
                Ok(None)
            }
        }
        Given::Closed { .. } => Ok(None),
        Given::Synced { .. } => Ok(None),
    }
}

// Whether the reply is a read's, and says that what is asked for is there.
fn is_found(alloc: Global, reply: &Reply) -> Result<bool, Memory>
    ensures { IfOk result (λ is. is ≡ spec.is_found reply.now) }
{
    let shows = shows_answer(reply.content());
    let status = written(alloc, reply)?.status;
    Ok(shows && status == 200)
}

// Whether the content is that of a read's reply.
fn shows_answer(content: &Content) -> bool
    ensures { result ≡ spec.shows_answer (content_of content.now) }
{
    matches!(content, Content::Shows { .. })
}
