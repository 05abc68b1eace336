//! The filters of the requests whose replies are still to come.

ghost use Rattle.std.specs.Prelude.{◌≡◌, ◌==◌, ℕ, OnOk, None, option_map, option_and_then, if◌then◌else◌};
ghost use Rattle.filter_expr.specs.Expressions.{expression_of};
ghost use Rattle.script_player.specs.Stage.{kept_in, put_for};
ghost use Rattle.cluster_rules.specs.Sound.{is_of};

use cat_model::Memory;
use filter_expr::Filter;
use std::alloc::Global;
use std::collections::BTreeMap;

/// Filters by the numbers of their requests.
#[derive(Drop)]
pub struct Filters {
    by_number: BTreeMap<u64, Filter>,
}

impl Filters {
    pub fn new(alloc: Global) -> Filters
        ensures { (k : ℕ) → kept_in result k ≡ None }
    {
        Filters {
            by_number: BTreeMap::new(alloc),
        }
    }

    /// Keeps the filter of a request, if it has one.
    pub fn put(&mut self, number: u64, filter: Option<Filter>) -> Result<(), Memory>
        ensures { OnOk result ((k : ℕ) → kept_in self.new k ≡ put_for number (option_map expression_of filter) (kept_in self.old) k) }
    {
        if let Some(filter) = filter {
            self.by_number.insert(number, filter)?;
        }
        Ok(())
    }

    /// Takes the filter out that is kept for an out with this number, if there is one.
    pub fn take(&mut self, number: Option<u64>) -> Option<Filter>
        ensures filter { option_map expression_of result ≡ option_and_then (kept_in self.old) number }
        ensures rest { (k : ℕ) → kept_in self.new k ≡ (if is_of k number then None else kept_in self.old k) }
    {
        match number {
            Some(number) => self.by_number.remove(&number),
            None => None,
        }
    }
}
