// The file.
ghost use Rattle.std.specs.Prelude.{◌≡◌, ◌+◌, ◌<◌, ◌≤◌, IfOk, OnOk, []};
ghost use Rattle.sample_jpeg.specs.DrawnMcus.{drawn_blocks};
ghost use Rattle.sample_jpeg.specs.SampleFile.{sample_file};
ghost use Rattle.sample_jpeg.specs.SampleHeader.{IsExtent, extent_of};
ghost use Rattle.sample_jpeg.specs.SampleWriting.{IsUnderWay, PutsMcu, PutsMcus};

use crate::draws::Draws;
use crate::extent::Extent;
use crate::header::{plan_of, put_header};
use allocation::{NoMemory, extend_from_slice};
use bit_list::Piece;
use huff_table::PlanCodes;
use scan_spec::Pads;
use scan_write::Writer;
use std::alloc::Global;

/// The marker that ends an image, EOI (ITU-T T.81, B.2.1).
const END_OF_IMAGE: [u8; 2] = [0xff, 0xd9];

/// The file of a seed, with three components of `columns` by `rows` blocks each, both from 1 to 256: 8 times as many
/// pixels across and down. Odd seeds give restart intervals of one row of MCUs. The one error is out of memory.
#[inline(never)]
pub fn sample(alloc: Global, seed: u32, columns: u16, rows: u16) -> Result<Vec<u8>, NoMemory>
    requires { IsExtent (extent_of seed columns rows) }
    ensures { IfOk result (λ file. file.items ≡ sample_file seed columns rows) }
{
    let extent = Extent::of(seed, columns, rows);
    let mut file = Vec::new(alloc);
    put_header(&mut file, &extent)?;
    let plan = plan_of(&file);
    let codes = PlanCodes::build(alloc, &plan)?;
    let mut writer = Writer::start(&plan, codes, Pads::All(true));
    let mut piece = Piece::new(alloc)?;
    let mut draws = Draws::new(seed);
    put_mcus(&mut draws, &mut writer, plan.mcus(), &mut piece, &mut file)?;
    extend_from_slice(&mut file, &END_OF_IMAGE)?;
    Ok(file)
}

// Draws MCUs and appends their bytes.
fn put_mcus(
    draws: &mut Draws,
    writer: &mut Writer,
    mcus: u32,
    piece: &mut Piece,
    file: &mut Vec<u8>,
) -> Result<(), NoMemory>
    requires way { IsUnderWay writer.old }
    requires count { writer.old.spot.count + mcus ≤ writer.old.shape.mcus }
    requires empty { piece.old ≡ [] }
    ensures { OnOk result (PutsMcus mcus draws.old.state writer.old file.old.items
        file.new.items) }
{
    for _ in 0..mcus {
        put_mcu(draws, writer, piece, file)?;
    }
    Ok(())
}

// Draws an MCU and appends its bytes.
fn put_mcu(
    draws: &mut Draws,
    writer: &mut Writer,
    piece: &mut Piece,
    file: &mut Vec<u8>,
) -> Result<(), NoMemory>
    requires way { IsUnderWay writer.old }
    requires more { writer.old.spot.count < writer.old.shape.mcus }
    requires empty { piece.old ≡ [] }
    ensures puts { OnOk result (PutsMcu draws.old.state writer.old writer.new file.old.items
        file.new.items) }
    ensures state { OnOk result (draws.new.state ≡ (drawn_blocks 3 draws.old.state).state) }
    ensures empty { OnOk result (piece.new ≡ []) }
{
    let mcu = draws.mcu();
    match writer.mcu(&mcu, piece) {
        Ok(()) => {}
        Err(_) => unreachable!(),
    }
    extend_from_slice(file, piece.bytes())?;
    piece.clear();
    Ok(())
}
