// A handover as fourteen bytes.
ghost use Rattle.std.specs.Prelude.{◌≡◌, ◌↔◌, ◌-◌, ◌%◌, ◌^◌, ◌≤◌, ◌==◌, nat_le, unsigned_abs, IfSome, IfNone, IsTrue};
ghost use Rattle.std.specs.List.{list_all};
ghost use Rattle.coef_block.specs.Block.{most_dc};
ghost use Rattle.handover.specs.HandoverBytes.{are_sound, handover_bytes, handover_in, is_handover};

use crate::handover::Handover;
use byteorder::{BigEndian, ByteOrder};
use coef_block::MOST_DC;

impl Handover {
    /// The fourteen bytes: the byte begun, its bits, four predictors of two bytes in two's complement, the restart
    /// markers in four bytes; the highest byte of a number comes first.
    pub fn to_bytes(&self) -> [u8; 14]
        ensures { result ≡ handover_bytes self.now }
    {
        let mut bytes = [0; 14];
        bytes[0] = self.partial;
        bytes[1] = self.bits;
        BigEndian::write_i16_into(&self.preds, &mut bytes[2..10]);
        BigEndian::write_u32(&mut bytes[10..], self.restarts);
        bytes
    }

    /// The handover with these bytes; none if they are no handover's: more than 7 bits are begun, a bit after them
    /// isn't 0, or a predictor is -32768.
    pub fn from_bytes(bytes: &[u8; 14]) -> Option<Handover>
        ensures some { IfSome result (λ h. h ≡ handover_in bytes.now) }
        ensures spelled { IfSome result (λ h. handover_bytes h ≡ bytes.now) }
        ensures none { IfNone result (¬ IsTrue (is_handover (handover_in bytes.now))) }
    {
        let (partial, bits) = (bytes[0], bytes[1]);
        let mut preds = [0; 4];
        BigEndian::read_i16_into(&bytes[2..10], &mut preds);
        if !are_sound(partial, bits, &preds) {
            return None;
        }
        let restarts = BigEndian::read_u32(&bytes[10..]);
        Some(Handover {
            partial,
            bits,
            preds,
            restarts,
        })
    }

    /// Whether both are one.
    pub fn same(&self, other: &Handover) -> bool
        ensures { IsTrue result ↔ (self.now ≡ other.now) }
    {
        self == other
    }
}

// Whether at most seven bits are begun, zeros follow them, and each predictor is a DC that a block can have.
fn are_sound(partial: u8, bits: u8, preds: &[i16; 4]) -> bool
    ensures { result ≡ are_sound partial bits preds.now }
{
    bits <= 7 && is_blank(partial, bits) && are_dcs(preds)
}

// Whether zeros follow the first bits of a byte.
fn is_blank(partial: u8, bits: u8) -> bool
    requires { bits ≤ 7 }
    ensures { result ≡ (partial % 2 ^ (8 - bits) == 0) }
{
    u16::from(partial) % (1 << (8 - bits)) == 0
}

// Whether each is a DC that a block can have.
fn are_dcs(preds: &[i16; 4]) -> bool
    ensures { result ≡ list_all (λ dc. nat_le (unsigned_abs dc) most_dc) preds.now }
{
    preds
        .iter()
        .all(|dc| u32::from(dc.unsigned_abs()) <= MOST_DC)
}
