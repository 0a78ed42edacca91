//! What a gate may keep.
ghost use Rattle.std.specs.Prelude.{◌≡◌, ℕ, List};

/// A value that represents a history: it has an opening, which no commit changes, and a list of commits, each with
/// the number of the seat that made it. This trait is the project's own.
pub trait Stands {
    /// What the value began as.
    type Opening;

    /// One change of the value.
    type Commit;

    ghost opening: { Self → Self.Opening };

    ghost commits: { Self → List (ℕ × Self.Commit) };

    ghost version_of: { Self.Opening → List (ℕ × Self.Commit) → ℕ };

    /// A number that the opening and the commits determine. It must not fall along a history:
    /// `Turn::done` asks that the value's version is not below that at the turn.
    fn version(&self) -> u64
        ensures { result ≡ version_of (opening self.now) (commits self.now) };
}
