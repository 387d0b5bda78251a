// What a board is for.

/// The bytes of each segment, and how each ends. They are data of the proof alone, of which the clauses speak.
pub trait Content {
    ghost use Rattle.std.specs.Prelude.{ℕ, List};
    ghost use Rattle.handover.specs.declared.outcome.Outcome.{Outcome};

    // The bytes of each segment.
    ghost bytes: { Self → List (List ℕ) };

    // The outcome of each segment.
    ghost outcomes: { Self → List Outcome };
}
