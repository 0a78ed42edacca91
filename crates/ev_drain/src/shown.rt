ghost use Rattle.std.specs.Prelude.{◌≡◌, ℕ, Bool};

use ev_types::Gen;

/// What workers may be shown, asked by number: whoever reaps keeps the pictures, and looks a number up in each.
pub trait Shows {
    // whether the generation of a number is shown
    ghost has: { Self → ℕ → Bool };

    /// Whether the generation of this number is shown.
    fn shows(&self, number: Gen) -> bool
        ensures { result ≡ has self.now number };
}
