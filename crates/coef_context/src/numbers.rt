// One number for each context.
ghost use Rattle.std.specs.Prelude.{◌≡◌, ℕ, ◌<◌, ◌≤◌, ◌+◌};
ghost use Rattle.coef_context.specs.declared.context.Context.{Context};
ghost use Rattle.coef_context.specs.BinNumbers.{IsContext, bin_number, low_bit_index};
ghost use Rattle.coef_context.specs.Runs.{bin_count};

// How many values each part of a context has.
const CLASSES: usize = 2;

pub(crate) const COUNT_SIZES: usize = 7;

pub(crate) const INNER_NODES: usize = 63;

pub(crate) const EDGE_NODES: usize = 7;

/// How many inner coefficients a block has.
pub const INNER_VALUES: usize = 49;

pub(crate) const EDGES: usize = 2;

/// How many coefficients each edge has.
pub const EDGE_VALUES: usize = 7;

pub(crate) const WEIGHTS: usize = 11;

pub(crate) const INNER_REMAIN_SIZES: usize = 6;

pub(crate) const EDGE_REMAIN_SIZES: usize = 3;

/// How many sizes the steps of an AC coefficient distinguish.
pub const AC_SIZES: usize = 10;

pub(crate) const SPREADS: usize = 17;

/// How many sizes the steps of a residue distinguish.
pub const DC_SIZES: usize = 16;

pub(crate) const AC_LOW_BITS: usize = 45;

pub(crate) const DC_LOW_BITS: usize = 120;

// Where each run begins: where the one before it ends.
pub(crate) const INNER_STEPS: usize = CLASSES * COUNT_SIZES * INNER_NODES;

pub(crate) const EDGE_COUNTS: usize = INNER_STEPS
    + CLASSES * INNER_VALUES * WEIGHTS * INNER_REMAIN_SIZES * AC_SIZES;

pub(crate) const EDGE_STEPS: usize = EDGE_COUNTS + CLASSES * EDGES * COUNT_SIZES * EDGE_NODES;

pub(crate) const DC_STEPS: usize = EDGE_STEPS
    + CLASSES * EDGES * EDGE_VALUES * WEIGHTS * EDGE_REMAIN_SIZES * AC_SIZES;

pub(crate) const INNER_SIGNS: usize = DC_STEPS + CLASSES * SPREADS * DC_SIZES;

pub(crate) const INNER_LOW_BITS: usize = INNER_SIGNS + CLASSES * INNER_VALUES * AC_SIZES;

pub(crate) const EDGE_SIGNS: usize = INNER_LOW_BITS + CLASSES * INNER_VALUES * AC_LOW_BITS;

pub(crate) const EDGE_LOW_BITS: usize = EDGE_SIGNS + CLASSES * EDGES * EDGE_VALUES * AC_SIZES;

pub(crate) const DC_SIGNS: usize = EDGE_LOW_BITS + CLASSES * EDGES * EDGE_VALUES * AC_LOW_BITS;

pub(crate) const DC_LOW_BITS_START: usize = DC_SIGNS + CLASSES * DC_SIZES;

/// How many bins there are for all contexts of both classes.
pub const BINS: usize = DC_LOW_BITS_START + CLASSES * DC_LOW_BITS;

/// The index of a lower bit among those of all sizes, from 0 to 119: size 2 has one lower bit, size 3 two, and so on.
#[inline]
#[tactic(auto, using(crate::proofs::Radix::rows_before))]
pub fn low_bit(size: usize, bit: usize) -> usize
    requires size { 2 ≤ size }
    requires small { size ≤ 16 }
    requires bit { bit + 2 ≤ size }
    ensures { result ≡ low_bit_index size bit }
{
    (size - 1) * (size - 2) / 2 + bit
}

/// Different contexts have different bins, and each has one of its own in each class.
pub fn different_numbers()
    ensures count { BINS ≡ bin_count }
    ensures once { (class other : ℕ) (c d : Context) → class < 2 → other < 2 → IsContext c → IsContext d
        → bin_number class c ≡ bin_number other d → (class ≡ other) × (c ≡ d) }
{}
