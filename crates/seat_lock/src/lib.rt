//! A lock whose passes know things, and whose value fits what they know whenever the turn is free.
//!
//!     turn 0, slot: the value          it fits the views of all passes
//!       |  try: 0 -> 1, slot taken
//!     turn 1, slot: nothing            the value that was found fits the views as they were
//!       |  tell: 1 -> 1                the holder's view is changed
//!       |  give: 1 -> 0, slot back
//!     turn 0, slot: the value          it fits the views of all passes
//!
//! A pass is what a thread holds the lock with. Its view is data of the proof alone: what the thread has done and seen
//! under the lock. A `Rule` says which value fits which views, and what a release makes of the holder's view. The bell
//! is for threads that wait until another one has changed something. Not handled here: what value and views mean (see
//! `output_board`).
#![tactic(auto)]

mod bell;
mod held;
mod known;
mod lock;
mod pass;
mod passes;
mod rule;
mod steps;
mod turn;

pub use held::Held;
pub use lock::Lock;
pub use pass::Pass;
pub use rule::Rule;
