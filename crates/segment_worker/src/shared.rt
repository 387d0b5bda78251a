// What the emitter and the workers of a stretch share.
use crate::content::Told;
use box_format::FileView;
use output_board::Board;

// The board of a stretch, its container, the number of its first segment there, how many segments it has, and the gate.
#[derive(Drop)]
pub(crate) struct Shared<'s, 'a, G> {
    pub(crate) board: &'s Board<Told<'a>>,
    pub(crate) view: &'s FileView<'a>,
    pub(crate) first: u8,
    pub(crate) count: u8,
    pub(crate) gate: &'s G,
}
