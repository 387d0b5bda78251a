//! Containers, the starts of segments, and decodes, worked by hand: what the built program doesn't show (`tests/rows`).
#![tactic(auto)]

#[cfg(test)]
mod boxes;
#[cfg(test)]
mod crews;
#[cfg(test)]
mod decoded;
#[cfg(test)]
mod pads;
#[cfg(test)]
mod parts;
#[cfg(test)]
mod starts;
#[cfg(test)]
mod steps;
