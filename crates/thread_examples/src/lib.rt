//! Events on a board, holds of a lock, and a board and a store of blobs under a lock, by hand and by threads.
#![tactic(auto)]

#[cfg(test)]
mod blobs;
#[cfg(test)]
mod boards;
#[cfg(test)]
mod emitter_by_hand;
#[cfg(test)]
mod events;
#[cfg(test)]
mod holds;
#[cfg(test)]
mod worker_by_hand;
