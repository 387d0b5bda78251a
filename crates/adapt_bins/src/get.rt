// From a stream to bits.
ghost use Rattle.std.specs.Prelude.{◌≡◌, ◌<◌, ◌↔◌, [], IsTrue, length, replicate, List, ℕ, Bool};
ghost use Rattle.bool_coder.specs.BoolStream.{coded, stream};
ghost use Rattle.bool_coder.specs.DecoderSeen.{Reads};
ghost use Rattle.adapt_bins.specs.Counts.{unseen};
ghost use Rattle.adapt_bins.specs.GotEvents.{GetsEvents, HasGot};

use crate::{Bins, Coder, Holds};
use bool_coder::Decoder;

/// The stop of what never stops: there is no value of it.
#[derive(Clone, Copy)]
pub enum Never {}

/// Gets bits from a stream: each is read with the probability that its bin had before, and counted there. It owns its
/// bins and its decoder.
#[derive(Drop)]
pub struct Get<'b> {
    bins: Bins,
    decoder: Decoder<'b>,
}

impl<'b> Get<'b> {
    /// Continues with bins and a decoder. `fresh` says that fresh bins and a decoder at its start have read no events
    /// so far.
    pub fn new(bins: Bins, decoder: Decoder<'b>) -> Get<'b>
        ensures bins { result.bins ≡ bins }
        ensures decoder { result.decoder ≡ decoder.entry }
        ensures fresh { bins ≡ replicate (length bins) unseen → Reads [] decoder.entry
            → HasGot result decoder.entry.bytes [] }
    {
        Get { bins, decoder }
    }

    /// Begins again at another stream, with the same number of fresh bins. It allocates no memory.
    pub fn restart(&mut self, decoder: Decoder<'b>)
        ensures bins { self.new.bins ≡ replicate (length self.old.bins) unseen }
        ensures decoder { self.new.decoder ≡ decoder.entry }
        ensures fresh { Reads [] decoder.entry → HasGot self.new decoder.entry.bytes [] }
    {
        self.bins.fresh();
        self.decoder = decoder;
    }

    /// Whether the bytes are the stream of the bits that were read, and nothing more.
    pub fn exact(&self) -> bool
        ensures { (bools : List (ℕ × Bool)) → Reads bools self.now.decoder
            → (IsTrue result ↔ (self.now.decoder.bytes ≡ stream (coded bools))) }
    {
        self.decoder.exact()
    }
}

impl Coder for Get<'_> {
    ghost use Rattle.std.specs.Prelude.{false, length, ⊤};
    ghost use Rattle.adapt_bins.specs.GotEvents.{GetsEvents, gets_none, gets_joined};

    // Past the end of the bytes all bits are zeros, so that there is always a next bit.
    type Stop = Never;

    ghost room = { λ s. length s.bins };

    ghost given = { false };

    ghost codes = { GetsEvents };

    ghost stopped = { λ _. ⊤ };

    ghost none = { gets_none };

    ghost joined = { gets_joined };

    ghost keeps = { λ s t es p. p.room };

    /// Reads the bit.
    #[inline(always)]
    fn code(&mut self, bin: usize, _bit: Option<bool>) -> Result<bool, Never> {
        let bit = self.decoder.take(self.bins.prob(bin));
        self.bins.count(bin, bit);
        Ok(bit)
    }

    /// Reads the bit, with a branch on it.
    #[inline(always)]
    fn code_branching(&mut self, bin: usize, _bit: Option<bool>) -> Result<bool, Never> {
        if self.decoder.take_branching(self.bins.prob(bin)) {
            self.bins.count(bin, true);
            return Ok(true);
        }
        self.bins.count(bin, false);
        Ok(false)
    }
}

impl<'b> Holds<Get<'b>> for Get<'b> {
    ghost use Rattle.std.specs.Prelude.{◌≡◌, length, ⊤};
    ghost use Rattle.adapt_bins.specs.GotEvents.{GetsEvents};

    ghost room = { λ s. length s.bins };

    ghost codes = { GetsEvents };

    ghost stopped = { λ _. ⊤ };

    ghost moves = { λ before left from. from ≡ before };

    #[inline(always)]
    fn moved(&mut self) -> Get<'b> {
        Get {
            bins: self.bins.moved(),
            decoder: self.decoder.again(),
        }
    }

    #[inline(always)]
    fn back(&mut self, local: Get<'b>) {
        *self = local;
    }
}
