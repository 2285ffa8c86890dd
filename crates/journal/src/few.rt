ghost use Rattle.std.specs.Prelude.{◌≡◌, ◌<◌, ◌≤◌, ⊤, [], ◌∷◌, ◌++◌, length, slice_set};

use std::alloc::AllocError;

/// At most `N` values, in the order in which they came.
// An array with a length, by the rule that the journal's memory is fixed. The kit's `ArrayVec` is not `Copy`, as a
// transaction is, and asks for a default of what it holds, which a transaction has not.
#[derive(Copy)]
pub(crate) struct Few<T, const N: usize> {
    len: usize,
    places: [T; N],
    ghost within: { len ≤ N },
    ghost all_places: { length places ≡ N },
}

// By hand: the derive is refused here, for a generic struct with ghost fields.
impl<T: Copy, const N: usize> Clone for Few<T, N> {
    ghost is_clone = { λ x y. y ≡ x };

    ghost is_infallible = { λ _. ⊤ };

    fn clone(&self) -> Result<Self, AllocError> {
        Ok(*self)
    }
}

impl<T: Copy, const N: usize> Few<T, N> {
    ghost use Rattle.journal.specs.Few.{items};

    /// None yet; the blank stands in the places that are free.
    pub(crate) fn none(blank: T) -> Self
        ensures { items result ≡ [] }
    {
        Few {
            len: 0,
            places: [blank; N],
        }
    }

    pub(crate) fn as_slice(&self) -> &[T]
        ensures values { result.now ≡ items self.now }
        ensures few { length result.now ≤ N }
    {
        &self.places[..self.len]
    }

    /// One more value.
    pub(crate) fn push(&mut self, value: T)
        requires { length (items self.old) < N }
        ensures { items self.new ≡ items self.old ++ value ∷ [] }
    {
        self.places[self.len] = value;
        self.len += 1;
    }

    /// Another value at a place that is taken.
    pub(crate) fn replace(&mut self, place: usize, value: T)
        requires { place < length (items self.old) }
        ensures { items self.new ≡ slice_set (items self.old) place value }
    {
        self.places[place] = value;
    }
}
