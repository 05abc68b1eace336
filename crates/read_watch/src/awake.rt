//! The numbers of the requests that are awake.

ghost use Rattle.std.specs.Prelude.{◌≡◌, ◌≢◌, ◌<◌, ◌≤◌, ◌⊎◌, ℕ, [], false, true, Contains, length, slice_index_or};
ghost use Rattle.read_watch.specs.Watch.{Rises, without};

use std::alloc::Global;
use std::marker::Model;

/// Numbers of requests, ascending. One is found in a logarithm of how many there are.
#[derive(Drop)]
pub struct AwakeNumbers {
    numbers: Vec<u64>,
}

impl Model for AwakeNumbers {
    ghost use Rattle.std.specs.Prelude.{ℕ, List};
    ghost use Rattle.read_watch.specs.Watch.{Rises};

    ghost Value = { List ℕ };

    ghost view = { λ a. a.numbers.items };

    ghost invariant = { λ a. Rises a.numbers.items };
}

// The place of the first that is not below a number.
fn place(numbers: &[u64], number: u64) -> usize
    requires { Rises numbers.now }
    ensures within { result ≤ length numbers.now }
    ensures below { (k d : ℕ) → k < result → slice_index_or numbers.now k d < number }
    ensures above { (k d : ℕ) → result ≤ k → k < length numbers.now → number ≤ slice_index_or numbers.now k d }
{
    numbers.partition_point(|n| *n < number)
}

// A number stands at its place.
fn stands_at(numbers: &[u64], at: usize, number: u64) -> bool
    ensures there { result ≡ true → (at < length numbers.now) × ((d : ℕ) → slice_index_or numbers.now at d ≡ number) }
    ensures none { result ≡ false → (d : ℕ) → at < length numbers.now → slice_index_or numbers.now at d ≢ number }
{
    at < numbers.len() && numbers[at] == number
}

impl AwakeNumbers {
    /// No numbers.
    pub fn new(alloc: Global) -> AwakeNumbers
        ensures { result ≡ [] }
    {
        AwakeNumbers {
            numbers: Vec::new(alloc),
        }
    }

    /// The numbers, ascending.
    pub fn as_slice(&self) -> &[u64]
        ensures { result.now ≡ self.now }
    {
        self.numbers.as_slice()
    }

    /// Adds a number, if there is memory or it is there already, and tells whether it is there.
    pub fn add(&mut self, number: u64) -> bool
        ensures there { result ≡ true → Contains self.new number }
        ensures alone { (n : ℕ) → Contains self.new n → Contains self.old n ⊎ (n ≡ number) }
        ensures kept { (n : ℕ) → Contains self.old n → Contains self.new n }
    {
        let at = place(self.numbers.as_slice(), number);
        if stands_at(self.numbers.as_slice(), at, number) {
            return true;
        }
        self.numbers.insert(at, number).is_ok()
    }

    /// Takes a number out, if it is there.
    pub fn take(&mut self, number: u64)
        ensures others { (n : ℕ) → n ≢ number → Contains self.old n → Contains self.new n }
        ensures gone { Contains self.new number → ⊥ }
        ensures left { self.new ≡ without number self.old }
    {
        let at = place(self.numbers.as_slice(), number);
        if stands_at(self.numbers.as_slice(), at, number) {
            self.numbers.remove(at);
        }
    }
}
