//! Items that fit a plan.

/// An item that may fit a plan. What that means is a fact of the item's own choice, for proofs alone.
pub trait Fits<P> {
    // it fits, in clauses
    ghost fits: { P → Self → Type 0 };
}
