// Who works on segments.

/// A worker by its number, from 0, or the emitter, which writes the output.
#[derive(Clone, Copy, PartialEq, Eq)]
pub enum Actor {
    Worker(u8),
    Emitter,
}
