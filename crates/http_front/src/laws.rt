//! Laws of servers, each the contract of a function with an empty body.

ghost use Rattle.std.specs.Prelude.{Err, ◌≡◌, ◌⊎◌};
ghost use Rattle.http_front.specs.declared.stop.Stop.TheVariants as stop;
ghost use Rattle.http_front.specs.Complete.{IsComplete, IsFaultless, IsServers, Run};

/// Completeness: whatever serve is called for, where no count of faults of what makes its stores, of its spawner, its
/// listener and its sink rises, it ends for lack of memory, or it is done. Then every connection that was asked for came
/// back, and over each of those whose own reads and writes did not fail every whole message has its one reply, in order,
/// up to the end of the bytes, a refusal, or a message that asked to close. Nothing was asked of the cluster but these
/// messages, and what a connection asked whose reads or writes failed.
pub fn nothing_is_left_out()
    ensures { (run : Run) → IsServers run → IsFaultless run → (run.ended ≡ Err stop.Memory) ⊎ IsComplete run }
{}
