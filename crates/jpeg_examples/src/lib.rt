//! Headers, blocks and code words: those of ITU-T T.81, and some worked by hand.
#![tactic(auto)]

#[cfg(test)]
mod blocks;
#[cfg(test)]
mod code_words;
#[cfg(test)]
mod further_headers;
#[cfg(test)]
mod marker_segments;
#[cfg(test)]
mod plans;
#[cfg(test)]
mod refusals;
#[cfg(test)]
mod standard_words;
