//! What makes things, one for each index of a list.
ghost use Rattle.std.specs.Prelude.{◌≡◌, ◌<◌, ℕ, IfOk, IfSome};

use std::alloc::{AllocError, Global};

/// Makes the thing of each index of a list. Threads share it.
pub trait Maker {
    /// What is made.
    type Thing;

    /// What a thread keeps from one index to the next, as a board that is used again.
    type Bench;

    ghost count: { Self → ℕ };

    /// Whether a thing is that of an index.
    ghost is_of: { Self → ℕ → Self.Thing → Type 0 };

    /// How many indices the list has.
    fn count(&self) -> usize
        ensures { result ≡ count self.now };

    /// What a thread has when it begins.
    fn bench(&self) -> Self::Bench;

    /// The thing of an index, or None where none is made yet.
    fn make(
        &self,
        alloc: Global,
        index: usize,
        bench: &mut Self::Bench,
    ) -> Result<Option<Self::Thing>, AllocError>
        requires { index < count self.now }
        ensures { IfOk result (λ thing. IfSome thing (is_of self.now index)) };
}
