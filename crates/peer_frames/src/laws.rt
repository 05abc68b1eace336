//! Laws of the definitions, each the contract of a function with an empty body.

ghost use Rattle.std.specs.Prelude.{◌≡◌, ℕ, List, ◌++◌, ◌<◌, take};
ghost use Rattle.std.specs.List.{AllByRecursion, flat_map};
ghost use Rattle.peer_frames.specs.declared.frame.Peers.{Peers};
ghost use Rattle.peer_frames.specs.declared.frame.Frame.{Frame};
ghost use Rattle.peer_frames.specs.Spelling.{Accepts, frame_bytes};
ghost use Rattle.peer_frames.specs.Fronts.{Stuck};

/// Bytes at which a reader stops are the first part of no list of frames, nor is any front of them that goes beyond the
/// place that it tells.
#[tactic(auto, using(crate::proofs::Soundness::begins_no_frames))]
pub fn stuck_begins_no_frames()
    ensures { (peers : Peers) (s : List ℕ) (at n : ℕ) → Stuck peers s at → at < n → (fs : List Frame) (t : List ℕ) → AllByRecursion (Accepts peers) fs → flat_map frame_bytes fs ≡ take n s ++ t → ⊥ }
{}
