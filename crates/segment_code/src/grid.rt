// The grid of a plan's blocks.
ghost use Rattle.std.specs.Prelude.{◌≡◌, length};
ghost use Rattle.coef_block.specs.BlockRows.{Extents, block_count};
ghost use Rattle.jpeg_marker.specs.declared.component.Component.{Component};
ghost use Rattle.jpeg_marker.specs.Plans.{IsPlan};
ghost use Rattle.scan_spec.specs.Slots.{shape_of};
ghost use Rattle.block_spec.specs.Grid.{IsGrid};
ghost use Rattle.container_spec.specs.ScanStream.{by_index, grid_of, mcu_extents};

use block_code::McuGrid;
use jpeg_marker::Plan;

/// The grid of a plan's blocks (ITU-T T.81, A.2).
pub(crate) fn grid_of(plan: &Plan) -> McuGrid
    ensures value { result ≡ grid_of plan.now }
    ensures grid { IsGrid result }
    ensures blocks { length (shape_of plan.now).slots ≡ block_count result.mcu }
{
    let (widths, heights) = mcu_extents(plan);
    McuGrid::new(plan.across(), widths, heights)
}

// How many blocks of each component of the frame, by its index, an MCU is wide and high (A.2.2, A.2.3).
fn mcu_extents(plan: &Plan) -> ([u32; 4], [u32; 4])
    ensures value { ◌≡◌ {A = Extents} (record { widths = result.0; heights = result.1 })
        (mcu_extents plan.now.components) }
    ensures kept { IsPlan plan.now }
{
    if plan.components().len() == 1 {
        (ones(plan), ones(plan))
    } else {
        (widths(plan), heights(plan))
    }
}

// One for each component of the scan, by its index, and 0 for the others.
fn ones(plan: &Plan) -> [u32; 4]
    ensures { result ≡ by_index (λ (part : Component). 1) plan.now.components }
{
    let components = plan.components();
    let mut ones = [0; 4];
    for component in components {
        ones[usize::from(component.index())] = 1;
    }
    ones
}

// The horizontal sampling factors by the component's index, and 0 for those that the scan leaves out.
fn widths(plan: &Plan) -> [u32; 4]
    ensures { result ≡ by_index (λ (part : Component). part.h) plan.now.components }
{
    let components = plan.components();
    let mut widths = [0; 4];
    for component in components {
        widths[usize::from(component.index())] = u32::from(component.h());
    }
    widths
}

// The vertical sampling factors by the component's index, and 0 for those that the scan leaves out.
fn heights(plan: &Plan) -> [u32; 4]
    ensures { result ≡ by_index (λ (part : Component). part.v) plan.now.components }
{
    let components = plan.components();
    let mut heights = [0; 4];
    for component in components {
        heights[usize::from(component.index())] = u32::from(component.v());
    }
    heights
}
