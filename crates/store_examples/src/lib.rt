//! Stores of photos: the worked records, calls of one caller, and of two and of eight in threads of their own, and
//! keepers that fail.
#![tactic(auto)]

#[cfg(test)]
mod calls;
#[cfg(test)]
mod failing;
#[cfg(test)]
mod records;
#[cfg(test)]
mod shared;
