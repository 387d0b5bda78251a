// Where the bins of a value and of a count begin.
ghost use Rattle.std.specs.Prelude.{◌≡◌, ℕ, ◌<◌, ◌≤◌, ◌+◌, ◌-◌, ◌*◌};
ghost use Rattle.coef_context.specs.BinNumbers.{bin_number, rows_from};
ghost use Rattle.coef_context.specs.Runs.{ac_sizes, bin_count, count_sizes, dc_low_bits, dc_sizes, edge_nodes, edge_remain_sizes, edge_values, inner_nodes, inner_remain_sizes, inner_values, spreads, weights};
ghost use Rattle.coef_context.specs.declared.context.Context.TheVariants.{DcStep, EdgeCount, EdgeStep, InnerCount, InnerStep};
ghost use Rattle.coef_context.specs.declared.context.Kind.TheVariants.{Dc, Inner};
ghost use Rattle.coef_context.specs.ValueBins.{kind_of, value_bins};
ghost use Rattle.coef_context.specs.BinBases.{AreBases, bins_at};

use crate::numbers::{
    AC_LOW_BITS, AC_SIZES, COUNT_SIZES, DC_LOW_BITS, DC_LOW_BITS_START, DC_SIGNS, DC_SIZES,
    DC_STEPS, EDGE_COUNTS, EDGE_LOW_BITS, EDGE_NODES, EDGE_REMAIN_SIZES, EDGE_SIGNS, EDGE_STEPS,
    EDGE_VALUES, EDGES, INNER_LOW_BITS, INNER_NODES, INNER_REMAIN_SIZES, INNER_SIGNS, INNER_STEPS,
    INNER_VALUES, SPREADS, WEIGHTS, low_bit,
};

/// Where the bins of one value begin: those of its steps, of its sign, and of its lower bits. A bin is then one sum
/// away.
#[derive(Clone, Copy)]
pub struct BinBases {
    steps: usize,
    signs: usize,
    lows: usize,
}

impl BinBases {
    /// The bin of a step, from 0 to 15.
    #[inline(always)]
    pub fn step(&self, step: u8) -> usize
        requires bases { AreBases self.now }
        requires step { step < dc_sizes }
        ensures value { result ≡ (bins_at self.now).step step }
        ensures below { result < bin_count }
    {
        self.steps + step as usize
    }

    /// The bin of the sign of a value with this many bits, from 1 to 16.
    #[inline(always)]
    pub fn sign(&self, size: u8) -> usize
        requires bases { AreBases self.now }
        requires some { 1 ≤ size }
        requires most { size ≤ dc_sizes }
        ensures value { result ≡ (bins_at self.now).sign size }
        ensures below { result < bin_count }
    {
        self.signs + (size as usize - 1)
    }

    /// Where the bins of the bits below the highest begin, of a value with this many bits, from 1 to 16.
    #[inline(always)]
    pub fn low(&self, size: u8) -> usize
        requires bases { AreBases self.now }
        requires some { 1 ≤ size }
        requires most { size ≤ dc_sizes }
        ensures value { ◌≡◌ {A = ℕ → ℕ} (λ bit. result + bit)
            (λ bit. (bins_at self.now).low size bit) }
        ensures below { result + (size - 1) ≤ bin_count }
    {
        self.lows + low_bits_before(size)
    }
}

// How many bits below the highest all smaller sizes have: size 2 has one, size 3 two, and so on.
#[inline(always)]
fn low_bits_before(size: u8) -> usize
    requires some { 1 ≤ size }
    requires most { size ≤ dc_sizes }
    ensures value { result ≡ rows_from 1 (size - 2) }
    ensures below { result + (size - 1) ≤ dc_low_bits }
{
    if size < 2 {
        0
    } else {
        low_bit(size as usize, 0)
    }
}

// How many steps come before those of values of which a number with so many bits remains.
#[inline(always)]
fn steps_before(remain_bits: u8) -> usize
    requires { 1 ≤ remain_bits }
    ensures { result ≡ (remain_bits - 1) * ac_sizes }
{
    (remain_bits as usize - 1) * AC_SIZES
}

/// Where the bins of an inner coefficient begin, by its place from 0 to 48, its weight, and how many bits the number of
/// those that remain has. The class is 0 for the frame's first component and 1 for the others.
#[inline(always)]
pub fn inner_bases(class: u8, place: usize, weight: u8, remain_bits: u8) -> BinBases
    requires class { class < 2 }
    requires place { place < inner_values }
    requires weight { weight < weights }
    requires some { 1 ≤ remain_bits }
    requires most { remain_bits ≤ inner_remain_sizes }
    ensures bins { bins_at result ≡ value_bins class Inner place
        (λ step. bin_number class (InnerStep place weight remain_bits step)) }
    ensures bases { AreBases result }
{
    let value = class as usize * INNER_VALUES + place;
    BinBases {
        steps: INNER_STEPS
            + value * (WEIGHTS * INNER_REMAIN_SIZES * AC_SIZES)
            + weight as usize * (INNER_REMAIN_SIZES * AC_SIZES)
            + steps_before(remain_bits),
        signs: INNER_SIGNS + value * AC_SIZES,
        lows: INNER_LOW_BITS + value * AC_LOW_BITS,
    }
}

/// Where the bins of a coefficient of the row edge, or of the column edge, begin, by its place from 0 to 6, its weight,
/// and how many bits the number of those that remain has.
#[inline(always)]
pub fn edge_bases(class: u8, column: bool, place: usize, weight: u8, remain_bits: u8) -> BinBases
    requires class { class < 2 }
    requires place { place < edge_values }
    requires weight { weight < weights }
    requires some { 1 ≤ remain_bits }
    requires most { remain_bits ≤ edge_remain_sizes }
    ensures bins { bins_at result ≡ value_bins class (kind_of column) place
        (λ step. bin_number class (EdgeStep column place weight remain_bits step)) }
    ensures bases { AreBases result }
{
    let value = (class as usize * EDGES + column as usize) * EDGE_VALUES + place;
    BinBases {
        steps: EDGE_STEPS
            + value * (WEIGHTS * EDGE_REMAIN_SIZES * AC_SIZES)
            + weight as usize * (EDGE_REMAIN_SIZES * AC_SIZES)
            + steps_before(remain_bits),
        signs: EDGE_SIGNS + value * AC_SIZES,
        lows: EDGE_LOW_BITS + value * AC_LOW_BITS,
    }
}

/// Where the bins of a residue begin, by the spread of the DCs above and to the left, from 0 to 16 bits.
#[inline(always)]
pub fn dc_bases(class: u8, spread: u8) -> BinBases
    requires class { class < 2 }
    requires spread { spread < spreads }
    ensures bins { bins_at result
        ≡ value_bins class Dc 0 (λ step. bin_number class (DcStep spread step)) }
    ensures bases { AreBases result }
{
    BinBases {
        steps: DC_STEPS + (class as usize * SPREADS + spread as usize) * DC_SIZES,
        signs: DC_SIGNS + class as usize * DC_SIZES,
        lows: DC_LOW_BITS_START + class as usize * DC_LOW_BITS,
    }
}

/// Where the 63 bins of an inner count begin, by how many bits the guess at it has.
#[inline(always)]
pub fn inner_count_base(class: u8, guess_bits: u8) -> usize
    requires class { class < 2 }
    requires bits { guess_bits < count_sizes }
    ensures bins { ◌≡◌ {A = ℕ → ℕ} (λ node. result + (node - 1))
        (λ node. bin_number class (InnerCount guess_bits node)) }
    ensures below { result + (inner_nodes + 1) ≤ bin_count }
{
    (class as usize * COUNT_SIZES + guess_bits as usize) * INNER_NODES
}

/// Where the 7 bins of an edge's count begin, by how many bits the block's inner count has.
#[inline(always)]
pub fn edge_count_base(class: u8, column: bool, inner_bits: u8) -> usize
    requires class { class < 2 }
    requires bits { inner_bits < count_sizes }
    ensures bins { ◌≡◌ {A = ℕ → ℕ} (λ node. result + (node - 1))
        (λ node. bin_number class (EdgeCount column inner_bits node)) }
    ensures below { result + (edge_nodes + 1) ≤ bin_count }
{
    let edge = class as usize * EDGES + column as usize;
    EDGE_COUNTS + (edge * COUNT_SIZES + inner_bits as usize) * EDGE_NODES
}
