// What a scan is made of, as its readers and writers keep it.
ghost use Rattle.std.specs.Prelude.{◌≡◌, ◌≤◌, ◌+◌, ◌++◌, ◌<◌, IsTrue, length, map, take, replicate};
ghost use Rattle.std.specs.List.{All};
ghost use Rattle.jpeg_marker.specs.Frames.{are_components};
ghost use Rattle.jpeg_marker.specs.Plans.{part_of};
ghost use Rattle.huff_table.specs.ComponentTables.{codes_of};
ghost use Rattle.scan_spec.specs.Slots.{shape_of};
ghost use Rattle.scan_spec.specs.Spots.{is_closed, interval_number};
ghost use Rattle.scan_spec.specs.ShapeInside.{slot_in, component_indexes, most_slots};

use huff_table::{ComponentCodes, PlanCodes};
use jpeg_marker::{Component, Plan};
use std::marker::Model;

/// The most blocks of an MCU (ITU-T T.81, B.2.3).
pub const MOST_SLOTS: usize = 10;

/// What a scan is made of (ITU-T T.81, A.2, B.2.4.4): the code words of its components, the component of each block of
/// an MCU, how many MCUs there are, and how many MCUs a restart interval has.
///
/// Clauses see the `Shape`.
#[derive(Drop)]
pub struct ScanShape {
    codes: PlanCodes,
    // By index in the frame. Zeros follow the last.
    components: [u8; MOST_SLOTS],
    blocks: usize,
    mcus: u32,
    interval: u32,
}

impl Model for ScanShape {
    ghost use Rattle.scan_spec.specs.Slots.{Shape};
    ghost use Rattle.scan_spec.specs.ShapeInside.{shape_in, IsShapeInside};

    ghost Value = { Shape };

    ghost view = { shape_in };

    ghost invariant = { IsShapeInside };
}

impl ScanShape {
    /// The scan of a plan, with the code words of its tables.
    pub fn of(plan: &Plan, codes: PlanCodes) -> ScanShape
        requires { codes ≡ codes_of plan.now.components }
        ensures { result ≡ shape_of plan.now }
    {
        let (components, blocks) = blocks_of(plan.components());
        ScanShape {
            codes,
            components,
            blocks,
            mcus: plan.mcus(),
            interval: u32::from(plan.interval()),
        }
    }

    /// The code words of each component of the frame, and the component of each block of an MCU, in order.
    #[inline]
    pub fn slots(&self) -> (&[ComponentCodes], &[u8])
        ensures slots { map (slot_in result.0.now) result.1.now ≡ self.now.slots }
        ensures within { All (λ component. component < length result.0.now) result.1.now }
        ensures components { length result.0.now ≤ 4 }
        ensures blocks { length result.1.now ≤ most_slots }
    {
        (self.codes.components(), &self.components[..self.blocks])
    }

    /// Blocks of an MCU, at most ten.
    #[inline]
    pub fn blocks(&self) -> usize
        ensures value { result ≡ length self.now.slots }
        ensures few { result ≤ most_slots }
    {
        let (_, slots) = self.slots();
        slots.len()
    }

    /// How many MCUs there are.
    #[inline]
    pub fn mcus(&self) -> u32
        ensures { result ≡ self.now.mcus }
    {
        self.mcus
    }

    /// Whether an interval or the scan ends after this many MCUs, 1 at least.
    #[inline]
    pub fn is_closed(&self, count: u32) -> bool
        ensures { result ≡ is_closed self.now count }
    {
        count == self.mcus || (self.interval != 0 && count % self.interval == 0)
    }

    /// The number of the interval of the MCU after `count` others, from 0; 0 if there are no restarts.
    #[inline]
    pub fn interval_number(&self, count: u32) -> u32
        ensures { result ≡ interval_number self.now count }
    {
        if self.interval == 0 {
            0
        } else {
            count / self.interval
        }
    }
}

// The component of each block of an MCU, and how many blocks these are (A.2.2, A.2.3).
fn blocks_of(components: &[Component]) -> ([u8; MOST_SLOTS], usize)
    requires some { 1 ≤ length components.now }
    requires few { length components.now ≤ 4 }
    requires fit { IsTrue (are_components (map part_of components.now)) }
    ensures indexes { take result.1 result.0 ≡ component_indexes components.now }
    ensures count { result.1 ≤ most_slots }
{
    let mut slots = [0; MOST_SLOTS];
    if components.len() == 1 {
        slots[0] = components[0].index();
        return (slots, 1);
    }
    let mut count = 0;
    for component in components {
        let blocks = usize::from(component.h()) * usize::from(component.v());
        count = add(&mut slots, count, component.index(), blocks);
    }
    (slots, count)
}

// Puts blocks of one component after the first `count`, and answers how many there are then.
fn add(slots: &mut [u8; MOST_SLOTS], count: usize, component: u8, blocks: usize) -> usize
    requires { count + blocks ≤ most_slots }
    ensures count { result ≡ count + blocks }
    ensures slots { take result slots.new ≡ take count slots.old ++ replicate blocks component }
{
    for i in 0..blocks {
        slots[count + i] = component;
    }
    count + blocks
}
