//! Scans: their text by the plain program, read and written MCU by MCU, handed over from row to row, and in samples.
#![tactic(auto)]

#[cfg(test)]
mod excerpts;
#[cfg(test)]
mod handed_over;
#[cfg(test)]
mod headers;
#[cfg(test)]
mod pads;
#[cfg(test)]
mod samples;
#[cfg(test)]
mod scans_read;
#[cfg(test)]
mod scans_written;
#[cfg(test)]
mod texts;
#[cfg(test)]
mod values;
