// What a header says as a whole.
use crate::component::Component;
use crate::definitions::Definitions;
use crate::frame::Frame;
use crate::grid::{across, blocks_in_mcu, down};
use crate::parameters::FrameComponent;
use crate::refusal::HeaderRefusal;
use std::marker::Model;

// The most blocks of all scans of a file (own).
const MOST_BLOCKS: u32 = 16_777_216;

/// What a header says (ITU-T T.81, B.2): the scan's components with their tables, its grid of MCUs, the restart
/// interval, and what `read_next` has to know.
#[derive(Clone, Copy)]
pub struct Plan {
    components: [Component; 4],
    count: usize,
    across: u32,
    down: u32,
    interval: u16,
    header_length: usize,
    blocks: u32,
    known: Definitions,
}

impl Model for Plan {
    ghost use Rattle.jpeg_marker.specs.Plans.{PlanFields};
    ghost use Rattle.std.specs.Prelude.{refl};

    ghost Value = { PlanFields };

    ghost use Rattle.jpeg_marker.specs.PlanInside.{plan_fields, IsPlanInside, plan_inside};

    ghost view = { plan_fields };

    ghost invariant = { IsPlanInside };

    ghost inverse = { plan_inside };

    ghost inverse_ok = { λ a h. let e = h.long in Prim.rw (e, ← h.blank) refl };
}

impl Plan {
    ghost use Rattle.std.specs.Prelude.{◌≡◌, ◌↔◌, ◌<◌, ◌≤◌, ◌^◌, ◌+◌, ◌-◌, ◌*◌, ◌++◌, length, take, map, replicate, IfOk, IfSome, Some};
    ghost use Rattle.jpeg_marker.specs.Frames.{IsFrame};
    ghost use Rattle.jpeg_marker.specs.Plans.{IsPlan, IsChoice, parts_at, part_of, plan_at, plan_fault, plan_with, most_blocks, blocks_of, are_all_coded};
    ghost use Rattle.jpeg_marker.specs.Components.{no_component};
    ghost use Rattle.jpeg_marker.specs.HeaderRefusals.{fault_in};

    /// The plan of a scan of these components of the frame, after what is known. It is refused if it has too many
    /// blocks with those of the scans before.
    #[inline(never)]
    pub(crate) fn new(
        known: &Definitions,
        frame: &Frame,
        indexes: &[u8],
        parts: &[FrameComponent],
        components: [Component; 4],
        header_length: usize,
    ) -> Result<Plan, HeaderRefusal>
        requires frame { IsFrame frame.now }
        requires choice { IsChoice frame.now.parts indexes.now }
        requires chosen { parts.now ≡ parts_at frame.now.parts indexes.now }
        requires theirs { map part_of (take (length parts.now) components) ≡ parts.now }
        requires numbered { map (λ c. c.index) (take (length parts.now) components) ≡ indexes.now }
        requires blank { components
            ≡ take (length parts.now) components
            ++ replicate (4 - length parts.now) no_component }
        ensures fault { fault_in result
            ≡ plan_fault known.now.blocks frame.now (Some (take (length parts.now) components)) }
        ensures value { IfOk result (λ plan. plan
            ≡ plan_with known.now frame.now header_length (take (length parts.now) components)) }
    {
        let count = parts.len();
        let across = across(frame, parts);
        let down = down(frame, parts);
        let blocks = across * down * blocks_in_mcu(parts);
        if blocks > MOST_BLOCKS || known.blocks > MOST_BLOCKS - blocks {
            return Err(HeaderRefusal::TooManyBlocks);
        }
        let mut after = *known;
        after.coded = coded_after(&known.coded, indexes);
        after.blocks += blocks;
        Ok(Plan {
            components,
            count,
            across,
            down,
            interval: known.interval,
            header_length,
            blocks,
            known: after,
        })
    }

    /// What is known after the scan.
    pub(crate) fn known(&self) -> &Definitions
        ensures { result.now ≡ self.now.known }
    {
        &self.known
    }

    /// The same plan of a header that is at `place` of a file, with all bytes before its scan as its header.
    #[inline(never)]
    pub fn at(&self, place: usize) -> Plan
        requires { place + self.now.header_length < 2 ^ 64 }
        ensures { result ≡ plan_at place self.now }
    {
        let mut plan = *self;
        plan.header_length += place;
        plan
    }

    /// Whether the scans up to this one had all of the frame's components, so that none follows.
    pub fn is_last(&self) -> bool
        ensures { result ≡ are_all_coded self.now.known self.now.known.frame }
    {
        match &self.known.frame {
            Some(frame) => are_all_coded(&self.known.coded, frame.parts().len()),
            None => false,
        }
    }

    /// The scan's components, in the frame's order.
    pub fn components(&self) -> &[Component]
        ensures value { result.now ≡ self.now.components }
        ensures kept { IsPlan self.now }
    {
        &self.components[..self.count]
    }

    /// MCUs in a row.
    pub fn across(&self) -> u32
        ensures { result ≡ self.now.across }
    {
        self.across
    }

    /// Rows of MCUs.
    pub fn down(&self) -> u32
        ensures { result ≡ self.now.down }
    {
        self.down
    }

    /// MCUs of the scan's whole grid.
    pub fn mcus(&self) -> u32
        ensures value { result ≡ self.now.across * self.now.down }
        ensures some { 1 ≤ result }
        ensures few { result ≤ most_blocks }
    {
        self.across * self.down
    }

    /// MCUs between two restart markers, and 0 where there are none.
    pub fn interval(&self) -> u16
        ensures { result ≡ self.now.interval }
    {
        self.interval
    }

    /// How many bytes come before the scan: those of the header, or after `at` all of the file's.
    pub fn header_length(&self) -> usize
        ensures { result ≡ self.now.header_length }
    {
        self.header_length
    }

    /// Blocks of the scan's whole grid.
    pub fn blocks(&self) -> u32
        ensures value { result ≡ self.now.blocks }
        ensures kept { IsPlan self.now }
    {
        self.blocks
    }
}

ghost use Rattle.std.specs.Prelude.{◌≡◌, ◌≤◌, take, IsTrue};
ghost use Rattle.std.specs.List.{list_all};
ghost use Rattle.jpeg_marker.specs.Plans.{are_indexes, coded_after};

// Which components scans had, after one more with those of these indexes.
fn coded_after(coded: &[bool; 4], indexes: &[u8]) -> [bool; 4]
    requires { IsTrue (are_indexes 0 4 indexes.now) }
    ensures { result ≡ coded_after coded.now indexes.now }
{
    let mut all = *coded;
    for index in indexes {
        all[usize::from(*index)] = true;
    }
    all
}

// Whether scans had each of the first `count` components.
fn are_all_coded(coded: &[bool; 4], count: usize) -> bool
    requires { count ≤ 4 }
    ensures { result ≡ list_all (λ coded. coded) (take count coded.now) }
{
    for i in 0..count {
        if !coded[i] {
            return false;
        }
    }
    true
}
