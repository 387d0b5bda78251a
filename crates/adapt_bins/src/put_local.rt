// Bins and encoder in a local value, while a block is put.
use crate::{Bins, Coder};
use allocation::NoMemory;
use bool_coder::Encoder;

/// The bins and the encoder of a `Put`, owned: `Put::moved`. In a local value the encoder's state stays in registers;
/// through references all of it is loaded again after each store to a bin.
#[derive(Drop)]
pub struct PutLocal {
    pub(crate) bins: Bins,
    pub(crate) encoder: Encoder,
}

impl Coder for PutLocal {
    ghost use Rattle.std.specs.Prelude.{true, length, None, ◌≡◌};
    ghost use Rattle.adapt_bins.specs.PutEvents.{LocalPuts, local_none, local_joined};

    // The one stop is out of memory. The encoder is then spent.
    type Stop = NoMemory;

    ghost room = { λ s. length s.bins };

    ghost given = { true };

    ghost codes = { LocalPuts };

    ghost stopped = { λ s. s.encoder ≡ None };

    ghost none = { local_none };

    ghost joined = { local_joined };

    ghost keeps = { λ s t es p. p.room };

    /// Codes the bit, or a zero if none is given.
    #[inline(always)]
    fn code(&mut self, bin: usize, bit: Option<bool>) -> Result<bool, NoMemory> {
        let bit = bit.unwrap_or(false);
        self.encoder.put(self.bins.prob(bin), bit)?;
        self.bins.count(bin, bit);
        Ok(bit)
    }

    /// The same, with a branch on the bit.
    #[inline(always)]
    fn code_branching(&mut self, bin: usize, bit: Option<bool>) -> Result<bool, NoMemory> {
        if bit.unwrap_or(false) {
            self.code(bin, Some(true))
        } else {
            self.code(bin, Some(false))
        }
    }
}
