// What the coefficients that are read are put into.
ghost use Rattle.std.specs.Prelude.{◌≡◌, ◌<◌, List, ℤ, slice_index, slice_set, unsigned_abs, ⊤};
ghost use Rattle.coef_block.specs.Block.{IsCoefficient};
ghost use Rattle.coef_block.specs.Zigzag.{zigzag};

use coef_block::Block;

/// What the coefficients of a block are put into as they are read: a block, or nothing.
pub(crate) trait Target {
    /// It may have been given these coefficients, in natural order.
    ghost holds: { Self → List ℤ → Type 0 };

    /// Puts a coefficient that isn't 0 at a zigzag index, from 0 to 63.
    fn put(&mut self, index: usize, value: i16)
        requires index { index < 64 }
        requires coefficient { IsCoefficient (slice_index zigzag index) value }
        requires some { 0 < unsigned_abs value }
        ensures { (block : List ℤ) → holds self.old block
            → holds self.new (slice_set block (slice_index zigzag index) value) };
}

impl Target for Block {
    ghost holds = { λ kept block. kept ≡ block };

    #[inline(always)]
    fn put(&mut self, index: usize, value: i16) {
        self.put_in_zigzag(index, value);
    }
}

/// Keeps no coefficients: for a symbol of a block that is skipped.
#[derive(Clone, Copy)]
pub(crate) struct Nothing {}

impl Target for Nothing {
    ghost holds = { λ kept block. ⊤ };

    #[inline(always)]
    fn put(&mut self, _index: usize, _value: i16) {}
}
