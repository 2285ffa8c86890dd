ghost use Rattle.std.specs.Prelude.{◌≡◌, ◌≢◌, ◌<◌, ℕ, ⊤, true, false, ◌||◌, ◌==◌, ◌≤◌, IsTrue, count_by, length, replicate, slice_set};

use std::alloc::AllocError;

/// A set of numbers below `N`.
// A bool for each, and no set of the library's, by the rule that nothing here allocates. It is filled by `insert` in a `for`:
// of a set that a closure fills nothing is known afterwards, and `collect` may run out of memory.
// A fact of its field and no `impl Model`: a struct that holds one with a model is not copied where it is used again, and
// a `Transaction` is to be.
#[derive(Copy)]
pub struct NumberSet<const N: usize> {
    held: [bool; N],
    ghost long: { length held ≡ N },
}

// By hand: the derive is refused here, for a generic struct with ghost fields.
impl<const N: usize> Clone for NumberSet<N> {
    ghost is_clone = { λ x y. y ≡ x };

    ghost is_infallible = { λ _. ⊤ };

    fn clone(&self) -> Result<Self, AllocError> {
        Ok(*self)
    }
}

impl<const N: usize> NumberSet<N> {
    ghost use Rattle.journal.specs.NumberSet.{flags, has};

    /// The set that holds nothing.
    pub fn none() -> Self
        ensures list { flags result ≡ replicate N false }
        ensures each { (n : ℕ) → has result n ≡ false }
    {
        NumberSet { held: [false; N] }
    }

    /// The set that holds every number below `N`.
    pub fn all() -> Self
        ensures list { flags result ≡ replicate N true }
        ensures each { (n : ℕ) → n < N → has result n ≡ true }
    {
        NumberSet { held: [true; N] }
    }

    /// Whether it holds the number.
    pub fn holds(&self, number: u8) -> bool
        ensures value { result ≡ has self.now number }
        ensures below { IsTrue result → number < N }
    {
        self.held.get(usize::from(number)) == Some(&true)
    }

    /// Puts the number in; one that is not below `N` changes nothing.
    pub fn insert(&mut self, number: u8)
        ensures list { flags self.new ≡ slice_set (flags self.old) number true }
        ensures each { (n : ℕ) → n < N → has self.new n ≡ (number == n || has self.old n) }
        ensures others { (n : ℕ) → n ≢ number → has self.new n ≡ has self.old n }
    {
        let place = usize::from(number);
        if place < N {
            self.held[place] = true;
        }
    }

    /// Puts all numbers of the other set in.
    // By place: of an array's elements nothing is known after its `iter_mut`.
    #[tactic(auto, using(crate::proofs::Joins::join_more))]
    pub fn add(&mut self, other: &Self)
        ensures { (n : ℕ) → has self.new n ≡ (has self.old n || has other.now n) }
    {
        for (number, &held) in other.held.iter().enumerate() {
            self.held[number] |= held;
        }
    }

    /// How many numbers it holds.
    pub fn count(&self) -> usize
        ensures count { result ≡ count_by (λ held. held) (flags self.now) }
        ensures few { result ≤ N }
    {
        let mut number = 0;
        for &held in &self.held {
            if held {
                number += 1;
            }
        }
        number
    }
}
