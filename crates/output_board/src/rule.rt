// The rule of a board's lock.
use crate::content::Content;
use crate::seen::Seen;
use crate::view::View;
use board_core::Core;
use seat_lock::Rule;
use std::marker::PhantomData;

// The kinds of a release: the numbers of its actions (`kind_of` of `specs/Releases.antt`).
pub(crate) const NOTHING: u64 = 0;

pub(crate) const OVER: u64 = 1;

pub(crate) const CLAIM: u64 = 2;

pub(crate) const PUT: u64 = 3;

pub(crate) const PASS: u64 = 4;

pub(crate) const FINISH: u64 = 5;

pub(crate) const TAKE: u64 = 6;

pub(crate) const ADVANCE: u64 = 7;

pub(crate) const STOP: u64 = 8;

pub(crate) const LEAVE: u64 = 9;

/// The rule of a board for a content: what ties the board to what its seats know (`specs/SeatRule.antt`).
pub struct BoardRule<C> {
    content: PhantomData<C>,
}

impl<C: Content> Rule for BoardRule<C> {
    ghost use Rattle.output_board.specs.SeatRule.{Fits, MaySplit, view_with_one_made, new_view};
    ghost use Rattle.output_board.specs.Releases.{after, Tells};
    ghost use Rattle.output_board.specs.Splits.{splits_fit};

    type View = View<C>;

    type Value = Core;

    type Entry = Seen;

    ghost fits = { Fits C.bytes C.outcomes };

    ghost may_split = { MaySplit };

    ghost left = { view_with_one_made };

    ghost right = { new_view };

    ghost after = { after };

    ghost tells = { Tells C.bytes C.outcomes };

    ghost splits = { splits_fit C.bytes C.outcomes };
}
