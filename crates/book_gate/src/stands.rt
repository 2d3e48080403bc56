//! What a book has to tell of itself.

/// A book stands for a list of entries, to which turns add, and never take away.
pub trait Stands {
    type Entry;

    type Footing;

    ghost use Rattle.std.specs.Prelude.{ℕ, List};

    // What no turn may change.
    ghost footing: { Self → Self.Footing };

    ghost list: { Self → List Self.Entry };

    // How many of the entries are settled for good, as the book tells it; no
    // clause of the gate constrains it.
    ghost settled: { Self → ℕ };

    // How many faults were met, a number that no turn takes down.
    ghost count: { Self → ℕ };
}
