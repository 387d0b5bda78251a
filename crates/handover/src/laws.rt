// What holds of all handovers.
ghost use Rattle.handover.specs.OneSpelling.{TestIsExact, FieldsAreReadAgain, BytesAreSpelledAgain};

/// A handover and its bytes determine each other.
pub fn handovers_have_one_spelling()
    ensures fields { FieldsAreReadAgain }
    ensures bytes { BytesAreSpelledAgain }
    ensures test { TestIsExact }
{}
