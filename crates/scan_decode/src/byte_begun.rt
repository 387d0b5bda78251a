// The byte that one segment begins and the next one ends.
ghost use Rattle.std.specs.Prelude.{◌≡◌, ◌≤◌, ◌<◌, ◌-◌, ◌%◌, ◌^◌, length, take, get_or};
ghost use Rattle.bit_list.specs.Bits.{low_bits};
ghost use Rattle.cut_spec.specs.RowHandovers.{partial_byte};
ghost use Rattle.cut_spec.specs.HandedOver.{cursor_from, begun_in};

use bit_list::BitIn;

/// The bits of the unit at a place after its first `bits` bits, and those of the units after it.
pub(crate) fn after_bits(bytes: &[u8], place: usize, bits: u8) -> BitIn
    requires { bits ≤ 7 }
    ensures bytes { result.bytes ≡ bytes.now }
    ensures cursor { result.cursor ≡ cursor_from bytes.now place bits }
{
    let mut input = BitIn::at(bytes, place, 0);
    match input.take(bits) {
        Ok(_) => input,
        Err(_) => BitIn::at(bytes, place, bits),
    }
}

/// The bits that were read of a unit begun: as a byte, zeros after them, and how many they are.
pub(crate) fn byte_begun(bytes: &[u8], input: &BitIn) -> (u8, u8)
    ensures partial { result.0 ≡ partial_byte (begun_in bytes.now input.now.cursor) }
    ensures bits { result.1 ≡ length (begun_in bytes.now input.now.cursor) }
    ensures few { result.1 ≤ 7 }
    ensures blank { result.0 % 2 ^ (8 - result.1) ≡ 0 }
{
    let (_, left) = input.left();
    if left == 0 {
        return (0, 0);
    }
    let partial = without_last(byte_at(bytes, input.place()), left);
    (partial, 8 - left)
}

// A byte, or 0 past the end.
fn byte_at(bytes: &[u8], place: usize) -> u8
    ensures { result ≡ get_or bytes.now place 0 }
{
    if place < bytes.len() { bytes[place] } else { 0 }
}

// A byte with zeros for its last bits.
#[tactic(auto, using(crate::proofs::BytesBegun::cleared))]
fn without_last(byte: u8, last: u8) -> u8
    requires { last ≤ 8 }
    ensures partial { result ≡ partial_byte (take (8 - last) (low_bits 8 byte)) }
    ensures blank { result % 2 ^ last ≡ 0 }
{
    ((u16::from(byte) >> last) << last) as u8
}
