//! Bools, bins, contexts, predicted DCs and coded blocks, worked by hand.
#![tactic(auto)]

#[cfg(test)]
mod bins;
#[cfg(test)]
mod bools;
#[cfg(test)]
mod coded_blocks;
#[cfg(test)]
mod contexts;
#[cfg(test)]
mod plain_bins;
#[cfg(test)]
mod predictions;
