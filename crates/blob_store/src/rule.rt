// The rule of a store's lock.
use crate::keeper::Keeper;
use crate::note::Note;
use crate::shelf::Shelf;
use crate::view::View;
use seat_lock::Rule;
use std::marker::PhantomData;

/// Which blobs suit which keys: a fact of the proof alone, which each put requires of its key and blob.
pub trait Form {
    ghost use Rattle.std.specs.Prelude.{ℕ, List};

    // Holds of a key and a blob.
    ghost suits: { List ℕ → List ℕ → Type 0 };
}

/// The rule of a store's lock: what ties the store to what its callers know (`specs/StoreRule.antt`).
pub struct StoreRule<P, F> {
    of: PhantomData<(P, F)>,
}

impl<P: Keeper, F: Form> Rule for StoreRule<P, F> {
    ghost use Rattle.blob_store.specs.StoreRule.{Fits, Tells, MaySplit, after, new_view, same_view};
    ghost use Rattle.blob_store.specs.Splits.{splits_fit};

    type View = View;

    type Value = Shelf<P>;

    type Entry = Note;

    ghost fits = { Fits F.suits };

    ghost may_split = { MaySplit };

    ghost left = { same_view };

    ghost right = { new_view };

    ghost after = { after };

    ghost tells = { Tells };

    ghost splits = { splits_fit F.suits };
}
