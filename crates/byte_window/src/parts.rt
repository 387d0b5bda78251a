// Which parts of a file have a place in a slice of it, and what of their bytes goes into it.
ghost use Rattle.std.specs.Prelude.{◌≡◌, ◌<◌, ◌≤◌, ℕ};
ghost use Rattle.byte_window.specs.Slices.{cover_of};
ghost use Rattle.byte_window.specs.PartedFiles.{window_of};

use crate::window::Window;

/// Where the parts of a file begin.
pub trait Places {
    /// How many parts there are.
    ghost count: { Self → ℕ };

    /// The place of a part's first byte; after the last part that of the parts' end.
    ghost place: { Self → ℕ → ℕ };

    fn count(&self) -> u32
        ensures { result ≡ count self.now };

    fn place(&self, part: u32) -> u64
        requires { part ≤ count self.now }
        ensures { result ≡ place self.now part };
}

/// The parts with a place from `from` to before `to`: the first one, and the one after the last; 0 and 0 if there is
/// none.
pub fn parts_within<P: Places>(places: &P, from: u64, to: u64) -> (u32, u32)
    ensures first { result.0 ≡ (cover_of (P.place places.now) (P.count places.now) from to).from }
    ensures past { result.1 ≡ (cover_of (P.place places.now) (P.count places.now) from to).to }
    ensures order { result.0 ≤ result.1 }
    ensures within { result.1 ≤ P.count places.now }
{
    let mut parts = (0, 0);
    for part in 0..places.count() {
        if from.max(places.place(part)) < to.min(places.place(part + 1)) {
            parts = (if parts.0 == parts.1 { part } else { parts.0 }, part + 1);
        }
    }
    parts
}

/// What goes into the slice from `from` to before `to` of the bytes of these parts, which are those with a place in it.
pub fn window_within<P: Places>(places: &P, parts: (u32, u32), from: u64, to: u64) -> Window
    requires order { parts.0 ≤ parts.1 }
    requires within { parts.1 ≤ P.count places.now }
    ensures { result
        ≡ window_of (P.place places.now) (record { from = parts.0; to = parts.1 }) from to }
{
    let first = places.place(parts.0);
    let past = places.place(parts.1);
    Window {
        skip: if parts.0 == parts.1 {
            0
        } else {
            from.saturating_sub(first)
        },
        most: Some(to.min(past).saturating_sub(from.max(first))),
    }
}
