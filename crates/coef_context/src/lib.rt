//! The bin of a bit: one number below 82,744 for each context that a bit of a block can have (docs/FORMAT.md).
//!
//!           0  counts of the inner coefficients that aren't 0      75,542  signs of inner coefficients
//!         882  steps of inner coefficients                         76,522  their lower bits
//!      65,562  counts of the coefficients of both edges            80,932  signs of the coefficients of both edges
//!      65,758  steps of the coefficients of both edges             81,212  their lower bits
//!      74,998  steps of the DC's residue                           82,472  signs of the DC's residue
//!                                                                  82,504  its lower bits, up to 82,744
//!
//! A context says all that the probability of a bit may depend on: what the bit is of, and what is known before it
//! of this block and of those around. Each shape of context has a run of bins, in which the class of the component and
//! the parts of the context are digits. Different contexts have different bins: `different_numbers`.
//!
//! Blocks are coded without contexts: `BinBases` has where the bins of one value begin, so that each bin is one
//! sum away, and so have `inner_count_base` and `edge_count_base` for the bins of a count.
//!
//! Not handled here: which events a block has (see `block_spec`), and what a bin counts (see `adapt_bins`).
#![tactic(auto)]

mod bin_bases;
mod context;
mod numbers;

pub use bin_bases::{
    BinBases, dc_bases, edge_bases, edge_count_base, inner_bases, inner_count_base,
};
pub use context::{Context, Kind};
pub use numbers::{
    AC_SIZES, BINS, DC_SIZES, EDGE_VALUES, INNER_VALUES, different_numbers, low_bit,
};
