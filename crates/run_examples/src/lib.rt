//! Tests of the top call, and of the calls right below it, for what a row of `tests/rows.txt` can't show: sources and
//! sinks that fail, two workers that decode at the same time, each byte of a container changed, samples by their
//! digests, chunks cut after one pass, which segments a range begins, files of several scans segment by segment, and a
//! sink that takes the container of a file and nothing else.
#![tactic(auto)]

#[cfg(test)]
mod chunks;
#[cfg(test)]
mod containers;
#[cfg(test)]
mod decode;
#[cfg(test)]
mod ends;
#[cfg(test)]
mod expecting;
#[cfg(test)]
mod files;
#[cfg(test)]
mod meetings;
#[cfg(test)]
mod notes;
#[cfg(test)]
mod ranges;
#[cfg(test)]
mod rows;
#[cfg(test)]
mod samples;
#[cfg(test)]
mod scans;
#[cfg(test)]
mod segments;
#[cfg(test)]
mod trial;
