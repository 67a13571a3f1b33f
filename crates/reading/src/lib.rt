// Reading blocks: `decode_block`, and the whole block as a part of the image. Parameters as in the Rust, a rule.
#![tactic(auto)]

ghost use Rattle.std.specs.Prelude.{◌≡◌, length, IfOk};
ghost use Rattle.refusals.specs.Refusals.{answer_number};
ghost use Rattle.layout.specs.Bands.{bands_in};
ghost use Rattle.grid.specs.Internal.Blocks.{IsBlock};
ghost use Rattle.calls.specs.Orders.{block_number};
ghost use Rattle.calls.specs.Reads.{filled_with, block_read};
ghost use Rattle.calls.specs.Results.{shape_of};

use calls::Extent;
use common::product_fits;
use grid::{Grid, GridBlock};
use layout::bands::{band_count, bands_below};
use moves::part::read_planes;
use refusals::Refusal;
use widths::Widths;

pub mod whole;

// The questions of a block read, for an image of so many bytes and an output of so many: the block that is read.
fn find_block(
    image: usize,
    grid: Grid,
    widths: &Widths,
    block_row: u32,
    block_col: u32,
    resolution_level: u32,
    asked: Option<&[u32]>,
    room: usize,
) -> Result<GridBlock, Refusal>
    ensures number { answer_number result
        ≡ block_number widths.now grid image block_row block_col resolution_level (bands_in asked.entry) room }
    ensures block { IfOk result (IsBlock grid block_row block_col) }
{
    let grid = grid.check(widths)?;
    if resolution_level != 0 {
        return Err(Refusal::ResolutionLevel);
    }
    let block = grid.block(block_row, block_col)?;
    if image < block.end() {
        return Err(Refusal::ImageEnds);
    }
    let bands = grid.grid.bands;
    if !bands_below(bands, asked) {
        return Err(Refusal::NoSuchBand);
    }
    let plane = block.rows() * block.columns() * grid.sample_bytes();
    if !product_fits(band_count(bands, asked), plane, room) {
        return Err(Refusal::OutputTooShort);
    }
    Ok(block)
}

// The samples of a block: the bands asked for, row by row, each sample in its big-endian bytes.
pub fn decode_block(
    image: &[u8],
    grid: Grid,
    widths: &Widths,
    block_row: u32,
    block_col: u32,
    resolution_level: u32,
    asked: Option<&[u32]>,
    out: &mut [u8],
) -> Result<Extent, Refusal>
    ensures { filled_with (shape_of result) out.new
        ≡ block_read widths.now grid image.now block_row block_col resolution_level (bands_in asked.entry) out.old }
{
    let block = find_block(
        image.len(),
        grid,
        widths,
        block_row,
        block_col,
        resolution_level,
        asked,
        out.len(),
    )?;
    let layout = block.layout();
    read_planes(image, layout, asked, out);
    Ok(Extent {
        bands: band_count(grid.bands, asked),
        rows: layout.rows,
        columns: layout.columns,
    })
}
