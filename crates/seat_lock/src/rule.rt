// What a lock keeps.
ghost use Rattle.std.specs.Prelude.{◌≡◌, ℕ, List, [], ◌∷◌, ◌++◌, slice_set};
ghost use mathlib.Core.Option.{some};
ghost use lib.ListN.{get_elem?};

/// The value under a lock, what its passes know of it, and what ties the two.
pub trait Rule {
    /// What a pass knows. No value of it is needed but the first pass's.
    type View: Drop;

    /// The value under the lock.
    type Value: Drop + Send;

    /// What a release notes of the value found and of the value left.
    type Entry: Drop + Send;

    // Holds of the value at home and the views of all passes, in the order of their numbers.
    ghost fits: { Self.Value → List Self.View → Type 0 };

    // Which view of the first pass may be split.
    ghost may_split: { Self.View → Type 0 };

    // What a split makes of the first pass's view.
    ghost left: { Self.View → Self.View };

    // The view of the pass that is split off.
    ghost right: { Self.View → Self.View };

    // What kind, amount, entry and the value found make of the holder's view.
    ghost after: { Self.View → ℕ → ℕ → Self.Entry → Self.Value → Self.View };

    // A fact of the holder's view, kind, amount, entry, the value found and the value left.
    ghost tells: { Self.View → ℕ → ℕ → Self.Entry → Self.Value → Self.Value → Type 0 };

    // A value that fits the views still does after each split that is allowed.
    ghost splits: { (x : Self.Value) (views : List Self.View) (number : ℕ) (v : Self.View)
        → fits x views → get_elem? views number ≡ some v → may_split v
        → fits x (slice_set views number (left v) ++ right v ∷ []) };
}
