// The content of the board of a stretch: the bytes and the outcome of each segment.
ghost use Rattle.std.specs.Prelude.{◌≡◌};
ghost use Rattle.segment_worker.specs.Contents.{stretch};

use box_format::FileView;
use output_board::Content;
use std::marker::Model;
use std::snapshot::Snapshot;

/// The bytes and the outcome of each segment of a stretch, for the clauses of its board. When the program runs it holds
/// two numbers.
///
/// Clauses see the stretch.
#[derive(Drop)]
pub struct Told<'a> {
    container: Snapshot<FileView<'a>>,
    first: u8,
    count: u8,
}

impl<'a> Model for Told<'a> {
    ghost use Rattle.segment_worker.specs.Contents.{Stretch, stretch};

    ghost Value = { Stretch };

    ghost view = { λ t. stretch t.container.value t.first t.count };

    ghost invariant = { λ t. Unit {0} };
}

impl<'a> Told<'a> {
    pub fn new(view: &FileView<'a>, first: u8, count: u8) -> Told<'a>
        ensures { result ≡ stretch view.now first count }
    {
        Told {
            container: Snapshot::of(view),
            first,
            count,
        }
    }
}

impl<'a> Content for Told<'a> {
    ghost use Rattle.segment_worker.specs.Contents.{segments_bytes, segments_outcomes};

    ghost bytes = { segments_bytes };

    ghost outcomes = { segments_outcomes };
}
