//! Jobs by their numbers.
ghost use Rattle.std.specs.Prelude.{◌≡◌, ℕ};

/// A job that has a number. No two jobs of a ring have the same one.
pub trait Numbered {
    // the number of a job, in clauses
    ghost number_of: { Self → ℕ };

    /// The job's number.
    fn number(&self) -> u32
        ensures { result ≡ number_of self.now };
}
