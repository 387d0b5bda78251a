// What events change and leave, and what holds after every list of lawful ones from the opening board.
ghost use Rattle.std.specs.Prelude.{◌≡◌, ℕ, List};
ghost use Rattle.handover.specs.declared.outcome.Outcome.{Outcome};
ghost use Rattle.board_core.specs.declared.actor.Actor.{Actor};
ghost use Rattle.board_core.specs.declared.actor.Actor.TheVariants.{Worker};
ghost use Rattle.board_core.specs.BoardStates.{BoardState, Owns};
ghost use Rattle.board_core.specs.BoardSteps.{BoardStep, Claim, Put, Pass, Finish, Take, Advance, Stop, Leave, with_put, with_passed, with_outcome, with_taken, with_advance, with_stop};
ghost use Rattle.board_core.specs.BoardLaws.{EnabledEventsHappen, EventsHaveOneStep, LawfulEventsFit, EventsKeepTheBoard, TheBoardIsKept, BytesComeInOrder, NoBoardIsStuck, EventsAreFew, EventsLeaveOthers, WorkersLeaveTheEmitted};
ghost use Rattle.board_core.specs.BoardFrames.{ChangesOnly, IsAfterClaim, IsAfterLeave};

/// An event is enabled exactly if it has a step.
pub fn enabled_events_happen()
    ensures { EnabledEventsHappen }
{}

/// On a board on which `BoardInvariant` holds, an event has at most one step.
pub fn events_have_one_step()
    ensures { EventsHaveOneStep }
{}

/// If each segment has fewer than 2^64 bytes, a lawful event keeps the number of bytes put of a segment below 2^64. So
/// `step` may be called.
pub fn lawful_events_fit()
    ensures { LawfulEventsFit }
{}

/// `BoardInvariant` holds after a lawful event if it held before.
pub fn events_keep_the_board()
    ensures { EventsKeepTheBoard }
{}

/// `BoardInvariant` holds after every list of lawful events from the opening board.
pub fn the_board_is_kept()
    ensures { TheBoardIsKept }
{}

/// The bytes taken and passed, in order, are a prefix of the bytes of all segments, one after another.
pub fn bytes_come_in_order()
    ensures { BytesComeInOrder }
{}

/// A board that isn't ended has a lawful event other than Stop, or it may be stopped for a fault that is due.
pub fn no_board_is_stuck()
    ensures { NoBoardIsStuck }
{}

/// There are at most 2B + 3K + W + 1 lawful events, for K segments of B bytes in all and W workers.
pub fn events_are_few()
    ensures { EventsAreFew }
{}

/// An event leaves all other actors what they own.
pub fn events_leave_others()
    ensures { EventsLeaveOthers }
{}

/// A worker's event leaves what is emitted.
pub fn workers_leave_the_emitted()
    ensures { WorkersLeaveTheEmitted }
{}

/// What Claim changes and leaves.
pub fn claim_frame()
    ensures { (a : Actor) (old new : BoardState) → BoardStep old (Claim a) new
        → IsAfterClaim a old new }
{}

/// What Put changes and leaves.
pub fn put_frame()
    ensures { (w : ℕ) (bytes : List ℕ) (old new : BoardState) → BoardStep old (Put w bytes) new
        → (i : ℕ) × Owns old (Worker w) i × ChangesOnly i (with_put bytes) old new }
{}

/// What Pass changes and leaves.
pub fn pass_frame()
    ensures { (n : ℕ) (old new : BoardState) → BoardStep old (Pass n) new
        → ChangesOnly old.cur (with_passed n) old new }
{}

/// What Finish changes and leaves.
pub fn finish_frame()
    ensures { (a : Actor) (o : Outcome) (old new : BoardState) → BoardStep old (Finish a o) new
        → (i : ℕ) × Owns old a i × ChangesOnly i (with_outcome o) old new }
{}

/// What Take changes and leaves.
pub fn take_frame()
    ensures { (n : ℕ) (old new : BoardState) → BoardStep old (Take n) new
        → ChangesOnly old.cur (with_taken n) old new }
{}

/// What Advance changes and leaves.
pub fn advance_frame()
    ensures { (old new : BoardState) → BoardStep old Advance new → new ≡ with_advance old }
{}

/// What Stop changes and leaves.
pub fn stop_frame()
    ensures { (old new : BoardState) → BoardStep old Stop new → new ≡ with_stop old }
{}

/// What Leave changes and leaves.
pub fn leave_frame()
    ensures { (w : ℕ) (old new : BoardState) → BoardStep old (Leave w) new
        → IsAfterLeave w old new }
{}
