//! Reading and writing with faults, and the program's arguments.
#![tactic(auto)]

#[cfg(test)]
mod arguments;
#[cfg(test)]
mod sources_and_sinks;
#[cfg(test)]
mod streams;
