// What a segment of a scan starts from.
ghost use Rattle.std.specs.Prelude.{◌≡◌, ◌≤◌, ◌-◌, ◌%◌, ◌^◌, All};
ghost use Rattle.coef_block.specs.Block.{IsDc};
ghost use Rattle.handover.specs.Handovers.{IsHandover, start};

use std::marker::Model;

/// What a segment of a scan starts from. Clauses see its fields, `HandoverFields`.
///
/// `partial` is the byte begun: its first `bits` bits (0 to 7, the highest first) are written, the others are 0.
/// `preds` are the last DCs of the components (T.81 F.1.1.5.1), in the order of the frame and each within +-32767.
/// `restarts` counts the restart markers before.
#[derive(Clone, Copy, Debug, PartialEq, Eq)]
pub struct Handover {
    pub(crate) partial: u8,
    pub(crate) bits: u8,
    pub(crate) preds: [i16; 4],
    pub(crate) restarts: u32,
}

impl Model for Handover {
    ghost use Rattle.handover.specs.Handovers.{HandoverFields, IsHandover};
    ghost use Rattle.handover.specs.HandoverInside.{handover_fields, handover_inside};
    ghost use Rattle.std.specs.Prelude.{refl};

    ghost Value = { HandoverFields };

    ghost view = { handover_fields };

    ghost invariant = { λ h. IsHandover (handover_fields h) };

    ghost inverse = { handover_inside };

    ghost inverse_ok = { λ a h. refl };
}

impl Handover {
    /// The handover at the start of a scan: no bit, each DC 0, no restart marker.
    pub fn start() -> Handover
        ensures { result ≡ start }
    {
        Handover {
            partial: 0,
            bits: 0,
            preds: [0; 4],
            restarts: 0,
        }
    }

    /// The handover with these fields.
    pub fn new(partial: u8, bits: u8, preds: [i16; 4], restarts: u32) -> Handover
        requires few { bits ≤ 7 }
        requires blank { partial % 2 ^ (8 - bits) ≡ 0 }
        requires range { All IsDc preds }
        ensures value { result
            ≡ record { partial = partial; bits = bits; preds = preds; restarts = restarts } }
        ensures kept { IsHandover result }
    {
        Handover {
            partial,
            bits,
            preds,
            restarts,
        }
    }

    /// The byte begun, zeros after its first `bits` bits.
    pub fn partial(&self) -> u8
        ensures value { result ≡ self.now.partial }
        ensures blank { result % 2 ^ (8 - self.now.bits) ≡ 0 }
    {
        self.partial
    }

    /// How many bits of it are written, at most 7.
    pub fn bits(&self) -> u8
        ensures value { result ≡ self.now.bits }
        ensures few { result ≤ 7 }
    {
        self.bits
    }

    /// The last DCs of the components, in the order of the frame.
    pub fn preds(&self) -> [i16; 4]
        ensures value { result ≡ self.now.preds }
        ensures range { All IsDc result }
    {
        self.preds
    }

    /// How many restart markers there are before.
    pub fn restarts(&self) -> u32
        ensures { result ≡ self.now.restarts }
    {
        self.restarts
    }
}
