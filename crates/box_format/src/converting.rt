// From a container of one scan to the same one in another version.
ghost use Rattle.std.specs.Prelude.{false, None, ℕ, List, Option, ◌≡◌, ◌+◌, ◌-◌, ◌^◌, [], ◌∷◌, ◌++◌, length, min, flat_map, option_map, IfOk, IfSome, OnOk};
ghost use Rattle.box_format.specs.Parts.{in_version, records, with_places};
ghost use Rattle.box_format.specs.Given.{scans_room};
ghost use Rattle.box_format.specs.Single.{box_bytes};
ghost use Rattle.box_format.specs.Versions.{layout_of};

use crate::version::Version;
use crate::view::BoxView;
use crate::writing::{MOST_ROOM, list_of, pad_byte, put_lengths, put_place, put_record, put_start};
use allocation::{NoMemory, extend_from_slice, push, with_capacity};
use std::alloc::Global;

/// The same container in version 5, with these places: of each segment's first byte in the file, and after them of the
/// scan's end. What its streams stand for isn't looked at. The one error is out of memory.
pub fn write_placed(alloc: Global, view: &BoxView, places: &[u64]) -> Result<Vec<u8>, NoMemory>
    requires whole { view.now.parts.chunk ≡ None }
    requires places { length places.now ≡ length view.now.parts.handovers + 1 }
    ensures { IfOk result (λ made. made.items ≡ box_bytes (with_places view.now.parts places.now)) }
{
    write_in(alloc, Version::Fifth, view, Some(places))
}

/// The same container in a version of one scan, with these places or none.
#[inline(never)]
pub(crate) fn write_in(
    alloc: Global,
    version: Version,
    view: &BoxView,
    places: Option<&[u64]>,
) -> Result<Vec<u8>, NoMemory>
    requires one { (layout_of version).several ≡ false }
    requires whole { view.now.parts.chunk ≡ None }
    requires places { IfSome places (λ all. length all.now ≡ length view.now.parts.handovers + 1) }
    ensures { IfOk result (λ made. let all = option_map (λ all. all.now) places.entry in
        made.items ≡ box_bytes (in_version version all view.now.parts)) }
{
    let mut made = with_capacity(alloc, room(version, view).min(MOST_ROOM))?;
    let pads = view.pad();
    let list = list_of(&pads);
    let header = view.header();
    let trailer = view.trailer();
    let segments = view.segments();
    put_start(&mut made, version, 1, trailer.len() as u32)?;
    push(&mut made, pad_byte(&pads))?;
    push(&mut made, segments)?;
    put_lengths(
        &mut made,
        version,
        header.len() as u32,
        trailer.len() as u32,
        list.len() as u32,
    )?;
    put_place(&mut made, places, usize::from(segments))?;
    put_records(&mut made, view, places)?;
    extend_from_slice(&mut made, list)?;
    extend_from_slice(&mut made, header)?;
    extend_from_slice(&mut made, trailer)?;
    put_streams(&mut made, view)?;
    Ok(made)
}

// How many bytes the container has, whatever its places, or the most that is counted.
fn room(version: Version, view: &BoxView) -> usize
    ensures { (places : Option (List ℕ)) → result
        ≡ min (2 ^ 64 - 1) (scans_room version (in_version version places view.now.parts ∷ [])) }
{
    let layout = version.layout();
    let mut room = (layout.first + layout.fields)
        .saturating_add(list_of(&view.pad()).len())
        .saturating_add(view.header().len())
        .saturating_add(view.trailer().len());
    for i in 0..view.segments() {
        room = room.saturating_add(layout.room.saturating_add(view.stream(i).len()));
    }
    room
}

// A record for each segment, with its place if there are places.
fn put_records(bytes: &mut Vec<u8>, view: &BoxView, places: Option<&[u64]>) -> Result<(), NoMemory>
    requires { IfSome places (λ all. length all.now ≡ length view.now.parts.handovers + 1) }
    ensures { OnOk result (bytes.new.items ≡ bytes.old.items
        ++ records (option_map (λ all. all.now) places.entry) 0 view.now.parts.handovers
        view.now.parts.streams) }
{
    for i in 0..view.segments() {
        put_record(bytes, &view.handover(i), view.stream(i).len() as u64)?;
        put_place(bytes, places, usize::from(i))?;
    }
    Ok(())
}

// The streams, one after another.
fn put_streams(bytes: &mut Vec<u8>, view: &BoxView) -> Result<(), NoMemory>
    ensures { OnOk result (bytes.new.items
        ≡ bytes.old.items ++ flat_map (λ stream. stream) view.now.parts.streams) }
{
    for i in 0..view.segments() {
        extend_from_slice(bytes, view.stream(i))?;
    }
    Ok(())
}
