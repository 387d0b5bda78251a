// A segment on the board.
ghost use Rattle.std.specs.Prelude.{◌≡◌, ℕ, ◌<◌, ◌≢◌, ◌↔◌, IsTrue, Some, length, MatchOption};
ghost use Rattle.board_core.specs.CoreInside.{kept_at};
ghost use Rattle.board_core.specs.BoardStates.{IsGood};

use crate::actor::Actor;
use crate::ring::Ring;
use handover::Outcome;

#[derive(Drop)]
pub(crate) struct Segment {
    pub(crate) owner: Option<Actor>,
    // How many bytes were put or passed.
    pub(crate) put: u64,
    // How many bytes the emitter took or passed.
    pub(crate) taken: u64,
    pub(crate) ring: Ring,
    pub(crate) done: Option<Outcome>,
}

// Whether an actor owns a segment.
pub(crate) fn is_owned(segment: &Segment, actor: Actor) -> bool
    ensures { IsTrue result ↔ (segment.now.owner ≡ Some actor) }
{
    match segment.owner {
        Some(owner) => owner == actor,
        None => false,
    }
}

// The index of the first segment that an actor owns.
pub(crate) fn index_of(segments: &[Segment], actor: Actor) -> Option<usize>
    ensures { MatchOption result
        ((i : ℕ) → (kept_at segments.now i).owner ≢ Some actor)
        (λ i. (i < length segments.now) × ((kept_at segments.now i).owner ≡ Some actor)) }
{
    for (i, segment) in segments.iter().enumerate() {
        if is_owned(segment, actor) {
            return Some(i);
        }
    }
    None
}

pub(crate) fn is_good(done: Option<Outcome>) -> bool
    ensures { IsTrue result ↔ IsGood done }
{
    match done {
        Some(Outcome::Good { pads: _ }) => true,
        Some(Outcome::Bad(_)) => false,
        None => false,
    }
}
