// What is written of a container: its file, a chunk or a range.
ghost use Rattle.std.specs.Prelude.{◌≡◌};
ghost use Rattle.box_format.specs.Containers.{segment_count};
ghost use Rattle.container_spec.specs.Portions.{chunk_portion, only_chunk, portion_meaning, scans_meaning, whole};
ghost use Rattle.container_spec.specs.ScansJoined.{first_header};
ghost use Rattle.lepton_decode.specs.Played.{IsWindowed};

use box_format::{BoxView, Chunk, FileView};
use byte_window::Window;
use container_spec::Kind;
use std::marker::Model;

/// What is written of a container: a part of the header, what the window lets through of `count` segments from number
/// `first` on, and a part of the trailer.
#[derive(Drop)]
pub struct Portion<'a> {
    pub before: &'a [u8],
    pub first: u8,
    pub count: u8,
    pub within: Window,
    pub after: &'a [u8],
}

impl<'a> Model for Portion<'a> {
    ghost use Rattle.std.specs.Prelude.{◌<◌, ◌^◌, length};
    ghost use Rattle.container_spec.specs.Portions.{Portion as PortionSeen};

    ghost Value = { PortionSeen };

    ghost view = { λ p. record {
      before = p.before.now;
      first = p.first;
      count = p.count;
      within = p.within;
      after = p.after.now;
    } };

    ghost invariant = { λ p. (length p.before.now < 2 ^ 32) × (length p.after.now < 2 ^ 32) };
}

/// The portion that a container stands for: its chunk, if it has one, or the whole file.
pub(crate) fn meant<'a>(view: &FileView<'a>) -> (Kind, Portion<'a>)
    ensures meaning { portion_meaning result.0 view.now result.1 ≡ scans_meaning view.now }
    ensures windowed { IsWindowed result.0 view.now result.1 }
    ensures first { result.1.first ≡ 0 }
    ensures count { result.1.count ≡ segment_count view.now }
{
    match only_chunk(view) {
        None => (Kind::File, whole(view)),
        Some(chunk) => (Kind::Chunk(chunk), chunk_portion(view, chunk)),
    }
}

// The chunk of a container that has one, which has one scan.
fn only_chunk(view: &FileView) -> Option<Chunk>
    ensures { result ≡ only_chunk view.now }
{
    if view.scans() > 1 {
        return None;
    }
    view.scan(0).chunk()
}

// The first scan's part of the container.
fn first_scan<'a>(view: &FileView<'a>) -> BoxView<'a>
    ensures header { first_header view.now ≡ result.parts.header }
{
    // Called for its clauses: there is a scan.
    let _scans = view.scans();
    view.scan(0)
}

// The portion that is the whole file.
fn whole<'a>(view: &FileView<'a>) -> Portion<'a>
    ensures { result ≡ whole view.now }
{
    Portion {
        before: first_scan(view).header(),
        first: 0,
        count: view.segments(),
        within: Window::everything(),
        after: view.trailer(),
    }
}

// The portion that is this chunk.
fn chunk_portion<'a>(view: &FileView<'a>, chunk: Chunk) -> Portion<'a>
    ensures { result ≡ chunk_portion chunk view.now }
{
    let part = Window {
        skip: chunk.place,
        most: Some(chunk.length),
    };
    let before = part.cut(first_scan(view).header());
    let after = view.trailer();
    let others = before.len() as u64 + after.len() as u64;
    Portion {
        before,
        first: 0,
        count: view.segments(),
        within: Window {
            skip: chunk.skip,
            most: Some(chunk.length.saturating_sub(others)),
        },
        after,
    }
}
