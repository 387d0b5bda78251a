// What holds of all bits and bytes.
ghost use Rattle.std.specs.Prelude.{◌≡◌, ℕ, ◌+◌, ◌/◌, ◌%◌, ◌^◌, ◌<◌, Bool, List, [], ◌++◌, length};
ghost use Rattle.std.specs.List.{AllByRecursion};
ghost use Rattle.bit_list.specs.Bits.{IsByte, low_bits, number_of, bits_of, bytes_after, begun_after, padding, stuffed};
ghost use Rattle.bit_list.specs.Units.{Cursor};
ghost use Rattle.bit_list.specs.BitLaws.{IsTakenAgain, IsTakenInParts, ArePeeked, PeekedAreAsMany};
ghost use Rattle.bit_list.specs.BitSpans.{TakenStand, StandingAreTaken, TakenFromWithin, StuffedAreFew};

/// Bits that were put as whole bytes, stuffed, among other bytes, are read again, and the next unit is the one
/// after them.
pub fn put_is_taken_again()
    ensures { (bits : List Bool) (prefix rest : List ℕ) → length bits % 8 ≡ 0
        → IsTakenAgain bits prefix rest }
{}

/// Bits complete the same bytes, put at once or in two parts.
pub fn bytes_of_parts()
    ensures { (begun xs ys : List Bool) → bytes_after begun (xs ++ ys)
        ≡ bytes_after begun xs ++ bytes_after (begun_after begun xs) ys }
{}

/// Bits leave the same byte begun, put at once or in two parts.
pub fn begun_of_parts()
    ensures { (begun xs ys : List Bool)
        → begun_after begun (xs ++ ys) ≡ begun_after (begun_after begun xs) ys }
{}

/// Eight bits complete a byte, and padding does.
pub fn eight_bits_a_byte()
    ensures bytes { (begun bits : List Bool) → length begun < 8
        → length (bytes_after begun bits) ≡ (length begun + length bits) / 8 }
    ensures begun { (begun bits : List Bool) → length begun < 8
        → length (begun_after begun bits) ≡ (length begun + length bits) % 8 }
    ensures padded { (begun : List Bool) (bit : Bool) → length begun < 8
        → (length begun + length (padding begun bit)) % 8 ≡ 0 }
{}

/// To read some bits is to read the first of them, and then the others.
pub fn taken_in_parts()
    ensures { (m n : ℕ) (bytes : List ℕ) (cursor : Cursor) → IsTakenInParts m n bytes cursor }
{}

/// Stuffed bytes determine the bytes, given how many they were.
pub fn stuffed_has_one_reading()
    ensures { (a b x y : List ℕ) → stuffed a ++ x ≡ stuffed b ++ y → length a ≡ length b → (a ≡ b)
        × (x ≡ y) }
{}

/// Bytes and then others are stuffed each for themselves.
pub fn stuffed_of_parts()
    ensures { (a b : List ℕ) → stuffed (a ++ b) ≡ stuffed a ++ stuffed b }
{}

/// A number and its low bits are one.
pub fn bits_are_numbers()
    ensures number { (k n : ℕ) → n < 2 ^ k → number_of (low_bits k n) ≡ n }
    ensures bits { (bits : List Bool) → low_bits (length bits) (number_of bits) ≡ bits }
    ensures below { (bits : List Bool) → number_of bits < 2 ^ length bits }
{}

/// Bytes and their bits are one.
pub fn bits_are_bytes()
    ensures bytes { (bytes : List ℕ) → AllByRecursion IsByte bytes
        → bytes_after [] (bits_of bytes) ≡ bytes }
    ensures bits { (bits : List Bool) → length bits % 8 ≡ 0 → bits_of (bytes_after [] bits) ≡ bits }
    ensures begun { (bits : List Bool) → length bits % 8 ≡ 0 → begun_after [] bits ≡ [] }
{}

/// The bits that are read are those of the units between the two cursors, those that are there are read, also from
/// within a unit, and stuffed bytes are at most twice as many.
pub fn bits_stand_in_units()
    ensures stand { TakenStand }
    ensures taken { StandingAreTaken }
    ensures within { TakenFromWithin }
    ensures few { StuffedAreFew }
{}

/// The bits that a peek gives are those that are read next, and then those that a peek after them gives. It gives N
/// bits if it is asked for N.
pub fn peeked_bits_are_taken()
    ensures first { ArePeeked }
    ensures many { PeekedAreAsMany }
{}
