// What holds of every list of bools.
ghost use Rattle.std.specs.Prelude.{◌≡◌, ℕ, Bool, true, false, List, [], ◌∷◌, ◌++◌, map, replicate};
ghost use Rattle.std.specs.List.{AllByRecursion};
ghost use Rattle.bool_coder.specs.BoolStream.{IsBool, IsOnLine, coded, stream};
ghost use Rattle.bool_coder.specs.BoolReading.{IsReading, next_bit};

/// Bottom plus range is at most 255 times 2 to the number of shifts (RFC 6386, 7.3): so a carry never leaves the
/// first byte.
pub fn stays_on_the_line()
    ensures { (bools : List (ℕ × Bool)) → AllByRecursion IsBool bools → IsOnLine (coded bools) }
{}

/// The definition on four lists: 12, 14, 25 and 20 shifts, and so three, three, five and four bytes.
pub fn rows_of_the_definition()
    ensures zeros { stream (coded (replicate 13 (128, false))) ≡ 0 ∷ 0 ∷ 0 ∷ [] }
    ensures a_one { stream (coded
        (replicate 12 (128, false) ++ (128, true) ∷ (128, false) ∷ (128, false) ∷ []))
        ≡ 0 ∷ 8 ∷ 0 ∷ [] }
    ensures more_zeros { stream (coded (replicate 26 (128, false))) ≡ 0 ∷ 0 ∷ 0 ∷ 0 ∷ 0 ∷ [] }
    ensures likely_zeros { stream (coded (replicate 13 (128, false) ++ replicate 13 (170, false)))
        ≡ 0 ∷ 0 ∷ 0 ∷ 0 ∷ [] }
{}

/// What was written is read again (RFC 6386, 7.3), whatever the bools: the stream of a list gives, under its probs, its
/// bools.
pub fn is_read_again()
    ensures { (bools : List (ℕ × Bool)) → AllByRecursion IsBool bools
        → IsReading (stream (coded bools)) bools }
{}

/// Two different lists under the same probs never have one stream.
pub fn one_list_a_stream()
    ensures { (xs ys : List (ℕ × Bool)) → AllByRecursion IsBool xs → AllByRecursion IsBool ys
        → map (λ (b : ℕ × Bool). b.0) xs ≡ map (λ (b : ℕ × Bool). b.0) ys
        → stream (coded xs) ≡ stream (coded ys) → xs ≡ ys }
{}

/// Each bool of a stream is read where it was written: after the bools before it, under its prob.
pub fn is_read_in_turn()
    ensures { (bools rest : List (ℕ × Bool)) (prob : ℕ) (bit : Bool)
        → AllByRecursion IsBool (bools ++ (prob, bit) ∷ rest)
        → next_bit (stream (coded (bools ++ (prob, bit) ∷ rest))) (coded bools) prob ≡ bit }
{}
