// The scan of a header (ITU-T T.81, B.2.3).
ghost use Rattle.std.specs.Prelude.{ℕ, ◌≡◌, ◌≤◌, ◌<◌, ◌+◌, ◌-◌, ◌*◌, ◌++◌, length, take, map, replicate, slice_index, IfOk, IfSome, OnOk, IsTrue, Some, option_map};
ghost use Rattle.std.specs.List.{list_all, list_any};
ghost use Rattle.jpeg_marker.specs.HeaderRefusals.{fault_in};
ghost use Rattle.jpeg_marker.specs.HeldTables.{table_in};
ghost use Rattle.jpeg_marker.specs.Components.{no_component};
ghost use Rattle.jpeg_marker.specs.Plans.{selectors_of, scan_selectors, indexes_from, are_indexes, leaves_out, is_coded, is_in_range, is_sequential, part_of, parts_at, component_of, components_of, order_fault, range_fault, scan_fault, plan_after};

use crate::component::Component;
use crate::definitions::Definitions;
use crate::parameters::{FrameComponent, ScanComponent};
use crate::plan::Plan;
use crate::refusal::HeaderRefusal;
use crate::scans::Scans;
use crate::table::RawTable;

/// Parses a scan header (SOS) after what is known, and gives the plan of the header that ends with it and has
/// `header_length` bytes. `body` is what follows the length field, which is at place `at`.
#[inline(never)]
pub(crate) fn read_scan(
    known: &Definitions,
    scans: Scans,
    body: &[u8],
    at: usize,
    header_length: usize,
) -> Result<Plan, HeaderRefusal>
    ensures fault { fault_in result ≡ scan_fault scans known.now known.now.frame at body.now }
    ensures found { IfOk result
        (λ plan. plan_after known.now known.now.frame header_length body.now ≡ Some plan) }
{
    let Some(frame) = &known.frame else {
        return Err(HeaderRefusal::NoFrame);
    };
    let indexes = check_order(scans, &known.coded, frame.parts(), body, at)?;
    check_ranges(body)?;
    let count = usize::from(body[0]);
    let selectors = list_selectors(&body[1..1 + 2 * count]);
    let parts = parts_at(frame.parts(), &indexes[..count]);
    let Some(components) = components(
        &indexes[..count],
        &parts[..count],
        &selectors[..count],
        &known.tables,
    ) else {
        return Err(HeaderRefusal::NoTable);
    };
    Plan::new(
        known,
        frame,
        &indexes[..count],
        &parts[..count],
        components,
        header_length,
    )
}

// Checks that the scan has some of the frame's components in the frame's order, and none that a scan before had. Gives
// their indexes.
#[inline(never)]
fn check_order(
    scans: Scans,
    coded: &[bool; 4],
    parts: &[FrameComponent],
    body: &[u8],
    at: usize,
) -> Result<[u8; 4], HeaderRefusal>
    requires { length parts.now ≤ 4 }
    ensures fault { fault_in result ≡ order_fault scans coded.now parts.now at body.now }
    ensures some { OnOk result (1 ≤ slice_index body.now 0) }
    ensures few { OnOk result (slice_index body.now 0 ≤ length parts.now) }
    ensures size { OnOk result (length body.now ≡ 4 + 2 * slice_index body.now 0) }
    ensures indexes { IfOk result (λ indexes. indexes_from 0 parts.now (scan_selectors body.now)
        ≡ Some (take (slice_index body.now 0) indexes)) }
    ensures rising { IfOk result (λ indexes. IsTrue
        (are_indexes 0 (length parts.now) (take (slice_index body.now 0) indexes))) }
    ensures low { IfOk result (λ indexes. IsTrue
        (are_indexes 0 4 (take (slice_index body.now 0) indexes))) }
{
    if body.is_empty() || body.len() != 4 + 2 * usize::from(body[0]) {
        return Err(HeaderRefusal::LengthBad { place: at });
    }
    let count = usize::from(body[0]);
    if leaves_out(scans, count, parts.len()) {
        return Err(HeaderRefusal::MultiScan);
    }
    if count == 0 || count > parts.len() {
        return Err(HeaderRefusal::ScanParams);
    }
    let selectors = list_selectors(&body[1..1 + 2 * count]);
    let Some(indexes) = indexes_of(parts, &selectors[..count]) else {
        return Err(HeaderRefusal::ScanParams);
    };
    if is_any_coded(coded, &indexes[..count]) {
        return Err(HeaderRefusal::MultiScan);
    }
    Ok(indexes)
}

// Whether a scan of `count` of `all` components leaves some out that no further scan may have.
fn leaves_out(scans: Scans, count: usize, all: usize) -> bool
    ensures { result ≡ leaves_out scans count all }
{
    match scans {
        Scans::One => 1 <= count && count < all,
        Scans::Several => false,
    }
}

// The indexes of the components that the scan names, if it names some of the frame's in its order.
fn indexes_of(parts: &[FrameComponent], selectors: &[ScanComponent]) -> Option<[u8; 4]>
    requires few { length parts.now ≤ 4 }
    requires fewer { length selectors.now ≤ length parts.now }
    ensures value { indexes_from 0 parts.now selectors.now
        ≡ option_map (λ indexes. take (length selectors.now) indexes) result }
    ensures rising { IfSome result (λ indexes. IsTrue
        (are_indexes 0 (length parts.now) (take (length selectors.now) indexes))) }
    ensures low { IfSome result (λ indexes. IsTrue
        (are_indexes 0 4 (take (length selectors.now) indexes))) }
{
    let mut indexes = [0; 4];
    let mut found = 0;
    for (index, part) in parts.iter().enumerate() {
        if found < selectors.len() && part.id == selectors[found].id {
            indexes[found] = index as u8;
            found += 1;
        }
    }
    if found < selectors.len() {
        return None;
    }
    Some(indexes)
}

// Whether a scan before had one of the components of these indexes.
fn is_any_coded(coded: &[bool; 4], indexes: &[u8]) -> bool
    requires { IsTrue (are_indexes 0 4 indexes.now) }
    ensures { result ≡ list_any (is_coded coded.now) indexes.now }
{
    for index in indexes {
        if coded[usize::from(*index)] {
            return true;
        }
    }
    false
}

// The components of these indexes.
fn parts_at(parts: &[FrameComponent], indexes: &[u8]) -> [FrameComponent; 4]
    requires within { IsTrue (are_indexes 0 (length parts.now) indexes.now) }
    requires few { length indexes.now ≤ 4 }
    ensures { take (length indexes.now) result ≡ parts_at parts.now indexes.now }
{
    let mut chosen = [FrameComponent { id: 0, h: 0, v: 0 }; 4];
    for (i, index) in indexes.iter().enumerate() {
        chosen[i] = parts[usize::from(*index)];
    }
    chosen
}

// Checks the numbers of tables, and that the scan is a sequential one.
fn check_ranges(body: &[u8]) -> Result<(), HeaderRefusal>
    requires few { slice_index body.now 0 ≤ 4 }
    requires size { length body.now ≡ 4 + 2 * slice_index body.now 0 }
    ensures fault { fault_in result ≡ range_fault body.now }
    ensures range { OnOk result (IsTrue (list_all is_in_range (scan_selectors body.now))) }
{
    let count = usize::from(body[0]);
    let selectors = list_selectors(&body[1..1 + 2 * count]);
    if are_in_range(&selectors[..count]) && is_sequential(&body[1 + 2 * count..]) {
        Ok(())
    } else {
        Err(HeaderRefusal::ScanParams)
    }
}

// The components in these bytes.
fn list_selectors(fields: &[u8]) -> [ScanComponent; 4]
    requires { length fields.now ≤ 8 }
    ensures value { (count : ℕ) → length fields.now ≡ 2 * count
        → take count result ≡ selectors_of fields.now }
{
    let mut selectors = [ScanComponent {
        id: 0,
        dc: 0,
        ac: 0,
    }; 4];
    let mut count = 0;
    let mut rest = fields;
    while let [id, tables, tail @ ..] = rest {
        selectors[count] = ScanComponent {
            id: *id,
            dc: *tables / 16,
            ac: *tables % 16,
        };
        count += 1;
        rest = tail;
    }
    selectors
}

fn are_in_range(selectors: &[ScanComponent]) -> bool
    ensures { result ≡ list_all is_in_range selectors.now }
{
    selectors.iter().all(is_in_range)
}

fn is_in_range(selector: &ScanComponent) -> bool
    ensures { result ≡ is_in_range selector.now }
{
    selector.dc <= 3 && selector.ac <= 3
}

fn is_sequential(bytes: &[u8]) -> bool
    requires { 3 ≤ length bytes.now }
    ensures { result ≡ is_sequential bytes.now }
{
    bytes[0] == 0 && bytes[1] == 63 && bytes[2] == 0
}

// The components with the tables that the scan names, if all are there.
#[inline(never)]
fn components(
    indexes: &[u8],
    parts: &[FrameComponent],
    selectors: &[ScanComponent],
    tables: &[Option<RawTable>; 8],
) -> Option<[Component; 4]>
    requires few { length parts.now ≤ 4 }
    requires each { length parts.now ≡ length indexes.now }
    requires same { length parts.now ≡ length selectors.now }
    requires range { IsTrue (list_all is_in_range selectors.now) }
    ensures value { components_of (table_in tables.now) indexes.now parts.now selectors.now
        ≡ option_map (λ found. take (length parts.now) found) result }
    ensures theirs { IfSome result
        (λ found. map part_of (take (length parts.now) found) ≡ parts.now) }
    ensures indexes { IfSome result
        (λ found. map (λ c. c.index) (take (length parts.now) found) ≡ indexes.now) }
    ensures blank { IfSome result (λ found. found
        ≡ take (length parts.now) found ++ replicate (4 - length parts.now) no_component) }
{
    let mut found = [Component::none(); 4];
    for i in 0..parts.len() {
        found[i] = component(indexes[i], parts[i], selectors[i], tables)?;
    }
    Some(found)
}

// A component with the tables that the scan names, if both are there.
fn component(
    index: u8,
    part: FrameComponent,
    selector: ScanComponent,
    tables: &[Option<RawTable>; 8],
) -> Option<Component>
    requires { IsTrue (is_in_range selector) }
    ensures { result ≡ component_of (table_in tables.now) index part selector }
{
    let dc = tables[usize::from(selector.dc)]?;
    let ac = tables[4 + usize::from(selector.ac)]?;
    let FrameComponent { id, h, v } = part;
    Some(Component {
        index,
        id,
        h,
        v,
        dc,
        ac,
    })
}
