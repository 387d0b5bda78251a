// Why no value can be read.
ghost use Rattle.huff_table.specs.declared.fault.CodeFault.TheVariants.{Bits};
ghost use Rattle.std.specs.Prelude.{◌≡◌};

use bit_list::BitFault;

/// Why no value can be read.
#[derive(Clone, Copy, Debug, PartialEq, Eq)]
pub enum CodeFault {
    /// A bit that is due isn't there.
    Bits(BitFault),
    /// The sixteen bits due don't begin with a code word; `place` is that of the last one's unit.
    NoWord { place: usize },
}

impl From<BitFault> for CodeFault {
    ghost from_gives = { λ fault error. error ≡ Bits fault };

    fn from(fault: BitFault) -> Self {
        CodeFault::Bits(fault)
    }
}
