// From bits to a stream.
ghost use Rattle.std.specs.Prelude.{◌≡◌, [], Some, length, replicate};
ghost use Rattle.bool_coder.specs.BoolStream.{opening};
ghost use Rattle.adapt_bins.specs.Counts.{unseen};
ghost use Rattle.adapt_bins.specs.PutEvents.{HasPut};

use crate::{Bins, Holds, PutLocal};
use bool_coder::Encoder;

/// Puts bits into a stream: it borrows the bins, which count each bit, and the encoder, which codes it with the
/// probability that its bin had before.
pub struct Put<'a> {
    bins: &'a mut Bins,
    encoder: &'a mut Encoder,
}

impl<'a> Put<'a> {
    /// Continues with bins and an encoder. `fresh` says that fresh bins and a new encoder have coded no events so far.
    pub fn new(bins: &'a mut Bins, encoder: &'a mut Encoder) -> Put<'a>
        ensures same_bins { result.bins.ghost_name ≡ bins.entry.ghost_name }
        ensures same_encoder { result.encoder.ghost_name ≡ encoder.entry.ghost_name }
        ensures bins { result.bins.now ≡ bins.old }
        ensures encoder { result.encoder.now ≡ encoder.old }
        ensures fresh { bins.old ≡ replicate (length bins.old) unseen
            → encoder.old ≡ Some opening → HasPut result [] }
    {
        Put { bins, encoder }
    }
}

impl Drop for Put<'_> {
    /// Gives both back as they are.
    fn drop(self)
        ensures bins { self.exit.0.now ≡ self.entry.bins.now }
        ensures encoder { self.exit.1.0.now ≡ self.entry.encoder.now }
    {
        let Put {
            bins: _,
            encoder: _,
        } = self;
    }
}

impl Holds<PutLocal> for Put<'_> {
    ghost use Rattle.std.specs.Prelude.{◌≡◌, None, length};
    ghost use Rattle.adapt_bins.specs.PutEvents.{PutsEvents, MovesOut};

    ghost room = { λ s. length s.bins.now };

    ghost codes = { PutsEvents };

    ghost stopped = { λ s. s.encoder.now ≡ None };

    ghost moves = { MovesOut };

    #[inline(always)]
    fn moved(&mut self) -> PutLocal {
        PutLocal {
            bins: self.bins.moved(),
            encoder: self.encoder.moved(),
        }
    }

    #[inline(always)]
    fn back(&mut self, local: PutLocal) {
        let PutLocal { bins, encoder } = local;
        *self.bins = bins;
        *self.encoder = encoder;
    }
}
