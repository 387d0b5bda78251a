//! Bits and bytes, worked by hand.
#![tactic(auto)]

#[cfg(test)]
mod put;
#[cfg(test)]
mod taken;
