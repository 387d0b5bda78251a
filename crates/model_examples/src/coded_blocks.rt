// Streams worked by hand; the definitions give the same ones (`rows_of_events` of `block_spec`).
ghost use Rattle.std.specs.Prelude.{◌≡◌, length};
ghost use Rattle.coef_block.specs.BlockRows.{block_count};
ghost use Rattle.block_spec.specs.Grid.{IsGrid};

use adapt_bins::{Bins, Get, Put};
use block_code::{McuGrid, SegmentRows, get_block, get_mcu, put_block, put_mcu};
use block_spec::BlockFault;
use bool_coder::{Decoder, Encoder};
use coef_block::{Block, Rows};
use coef_context::BINS;
use std::alloc::{AllocError, Global};
use std::test::Fail;

// Two blocks one above the other.
#[test]
fn two_blocks_of_zeros(rt: HostRuntime) -> Result<(), Fail> {
    let blocks = [Block::zero(); 2];
    let stream = stream_of(rt.alloc(), one_by_two(), &blocks)?;
    assert!(rt; stream.as_slice() == [0; 4].as_slice());
    assert!(rt; reads(rt.alloc(), one_by_two(), &stream, &blocks)?);
    Ok(())
}

fn one_by_two() -> McuGrid
    ensures grid { IsGrid result }
    ensures blocks { block_count result.mcu ≡ 2 }
{
    McuGrid::new(1, [1, 0, 0, 0], [2, 0, 0, 0])
}

// The six blocks of a 4:2:0 MCU.
#[test]
fn six_blocks_of_zeros(rt: HostRuntime) -> Result<(), Fail> {
    let blocks = [Block::zero(); 6];
    let stream = stream_of(rt.alloc(), four_and_two(), &blocks)?;
    assert!(rt; stream.as_slice() == [0; 8].as_slice());
    assert!(rt; reads(rt.alloc(), four_and_two(), &stream, &blocks)?);
    Ok(())
}

fn four_and_two() -> McuGrid
    ensures grid { IsGrid result }
    ensures blocks { block_count result.mcu ≡ 6 }
{
    McuGrid::new(1, [2, 1, 1, 0], [2, 1, 1, 0])
}

// The stream of a segment of one MCU.
fn stream_of(alloc: Global, grid: McuGrid, blocks: &[Block]) -> Result<Vec<u8>, AllocError>
    requires grid { IsGrid grid }
    requires blocks { length blocks.now ≡ block_count grid.mcu }
{
    let mut segment = SegmentRows::new(alloc, grid)?;
    let mut bins = Bins::new(alloc, BINS)?;
    let mut encoder = Encoder::new(alloc);
    let mut put = Put::new(&mut bins, &mut encoder);
    put_mcu(&mut put, &mut segment, blocks)?;
    drop(put);
    Ok(encoder.finish()?)
}

// Whether a stream is exactly that of a segment of one MCU with these blocks.
fn reads(alloc: Global, grid: McuGrid, stream: &[u8], blocks: &[Block]) -> Result<bool, AllocError>
    requires grid { IsGrid grid }
    requires blocks { length blocks.now ≡ block_count grid.mcu }
{
    let mut segment = SegmentRows::new(alloc, grid)?;
    let bins = Bins::new(alloc, BINS)?;
    let Some(decoder) = Decoder::start(stream) else {
        return Ok(false);
    };
    let mut get = Get::new(bins, decoder);
    let mut out = Vec::from_elem(alloc, Block::zero(), blocks.len())?;
    let taken = get_mcu(&mut get, &mut segment, &mut out[..]).is_ok();
    Ok(taken && out.as_slice() == blocks && get.exact())
}

// A first block with -1 at natural position 9, zigzag index 4, and zeros otherwise.
#[test]
fn an_inner_coefficient(rt: HostRuntime) -> Result<(), Fail> {
    let mut block = Block::zero();
    block.set(9, -1);
    let stream = first_block(rt.alloc(), &block)?;
    assert!(rt; stream.as_slice() == [0x06, 0x80, 0x00].as_slice());
    let back = read_first(rt.alloc(), &stream)?;
    assert!(rt; back == Some((Ok(block), true)));
    Ok(())
}

// The stream of a frame's first block.
fn first_block(alloc: Global, block: &Block) -> Result<Vec<u8>, AllocError> {
    let rows = Rows::new(alloc, &[1], &[1])?;
    let mut bins = Bins::new(alloc, BINS)?;
    let mut encoder = Encoder::new(alloc);
    let mut put = Put::new(&mut bins, &mut encoder);
    put_block(&mut put, 0, &rows, 0, 0, 0, block)?;
    drop(put);
    Ok(encoder.finish()?)
}

// A stream, and the DC of a frame's first block that it gives, or why it gives none.
type First<'a> = (&'a [u8], Result<i16, BlockFault>);

// An inner count of 63, and zeros but for the DC: 2048, and 32768, which is none.
const FIRSTS: &[First<'static>] = &[
    (&[0xfe, 0xff, 0xff], Err(BlockFault::BlockCount)),
    (&[0x00, 0x0f, 0xff, 0x00, 0x00, 0x00], Ok(2048)),
    (
        &[0x00, 0x0f, 0xff, 0xf0, 0x00, 0x00, 0x00],
        Err(BlockFault::DcRange),
    ),
];

#[test]
fn first_blocks(rt: HostRuntime) -> Result<(), Fail> {
    for (stream, wanted) in FIRSTS {
        assert!(rt; gives_first(rt.alloc(), stream, *wanted)?, "{stream:?}");
    }
    Ok(())
}

fn gives_first(
    alloc: Global,
    stream: &[u8],
    wanted: Result<i16, BlockFault>,
) -> Result<bool, AllocError> {
    match read_first(alloc, stream)? {
        Some((Ok(block), _)) => Ok(wanted == Ok(block.get(0))),
        Some((Err(fault), _)) => Ok(wanted == Err(fault)),
        None => Ok(false),
    }
}

// What a stream gives as a frame's first block, and whether it is exactly its stream; nothing if it can't start.
fn read_first(
    alloc: Global,
    stream: &[u8],
) -> Result<Option<(Result<Block, BlockFault>, bool)>, AllocError> {
    let rows = Rows::new(alloc, &[1], &[1])?;
    let bins = Bins::new(alloc, BINS)?;
    let Some(decoder) = Decoder::start(stream) else {
        return Ok(None);
    };
    let mut get = Get::new(bins, decoder);
    let block = get_block(&mut get, 0, &rows, 0, 0, 0);
    Ok(Some((block, get.exact())))
}
