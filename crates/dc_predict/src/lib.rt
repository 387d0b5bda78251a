//! What the neighbours of a block say of its DC (docs/FORMAT.md): the predicted DC, and how far they differ.
//!
//!     diagonal | above
//!     ---------+------
//!       left   |   ?
//!
//! The predicted DC is one of those above and left if the diagonal one isn't between them, and otherwise the plane
//! through the three, above plus left less diagonal. With one of the two alone it is that one. ITU-T T.81's DC
//! predictor (F.1.1.5.1) is another thing: the last DC in coding order.
//!
//! Not handled here: the DC less the predicted DC, which is coded in bins by the spread (see `block_spec`).
#![tactic(auto)]

mod prediction;

pub use prediction::{predict, spread};
