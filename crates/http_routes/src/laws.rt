//! What holds of all routes. The function has nothing to do: its contract is the law.

ghost use Rattle.std.specs.Prelude.{ℕ, List};
ghost use Rattle.http_routes.specs.Routes.{route_of};
ghost use Rattle.cat_model.specs.Taken.{IsTakenAsked};

/// What a method, a target and a body ask for is taken: no target and no body can ask for what servers enter themselves,
/// nor for a transaction of more than 64 operations.
#[tactic(auto, using(crate::proofs::Taken::route_is_taken))]
pub fn routes_are_taken()
    ensures { (method target body : List ℕ) → IsTakenAsked (route_of method target body) }
{}
