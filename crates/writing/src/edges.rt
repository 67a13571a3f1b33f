// Re-lay: every block of a frame laid anew, from tight to full. The parameters are those of the other calls on a frame.
ghost use Rattle.std.specs.Prelude.{◌≡◌, ◌*◌, ◌≤◌, ◌<◌, false, length, drop};
ghost use Rattle.common.specs.Turns.{iter};
ghost use Rattle.grid.specs.Sizes.{band_bytes, image_bytes};
ghost use Rattle.calls.specs.Results.{relaid_of};
ghost use Rattle.calls.specs.Relay.{relay_block as relaid_block, relaid_by, relay as relay_by};

use crate::check::check_relay;
use grid::{AcceptedGrid, Grid, GridBlock};
use moves::relay::relay_block;
use refusals::Refusal;
use widths::Widths;

// Lays the blocks of a row of blocks anew. The scratch keeps its surplus.
fn relay_row(image: &mut [u8], grid: AcceptedGrid, row: usize, scratch: &mut [u8])
    requires row_in { row < grid.grid.nbpc }
    requires buffers_hold { (image_bytes grid.grid ≤ length image.old)
        × (grid.grid.bands * band_bytes grid.grid ≤ length scratch.old) }
    ensures image_is { image.new ≡ iter grid.grid.nbpr (λ column im. relaid_block grid.grid row column im) image.old }
    ensures scratch_kept { drop (grid.grid.bands * band_bytes grid.grid) scratch.new
        ≡ drop (grid.grid.bands * band_bytes grid.grid) scratch.old }
{
    let full = grid.under_full();
    // by number: blocks stand in no array
    for column in 0..grid.grid.nbpr as usize {
        let from = GridBlock { grid, row, column };
        let to = GridBlock {
            grid: full,
            row,
            column,
        };
        relay_block(image, from.layout(), to.layout(), scratch);
    }
}

// Lays every block anew, row of blocks after row.
fn relay_blocks(image: &mut [u8], grid: AcceptedGrid, scratch: &mut [u8])
    requires buffers_hold { (image_bytes grid.grid ≤ length image.old)
        × (grid.grid.bands * band_bytes grid.grid ≤ length scratch.old) }
    ensures image_is { image.new ≡ relaid_by false grid.grid image.old }
    ensures scratch_kept { drop (grid.grid.bands * band_bytes grid.grid) scratch.new
        ≡ drop (grid.grid.bands * band_bytes grid.grid) scratch.old }
{
    for row in 0..grid.grid.nbpc as usize {
        relay_row(image, grid, row, scratch);
    }
}

// Lays every block of a frame anew, marked or not, and answers the grid that is in force now: later calls take that one.
// Byte multiples lie the same under both rules. The scratch has a block's bytes at least, and they end as zeros.
pub fn relay(
    image: &mut [u8],
    marks: &[u64],
    grid: Grid,
    widths: &Widths,
    scratch: &mut [u8],
) -> Result<Grid, Refusal>
    ensures { relaid_of grid result image.new scratch.new ≡ relay_by widths.now grid image.old marks.now scratch.old }
{
    let grid = check_relay(grid, widths, image.len(), marks.len(), scratch.len())?;
    let whole_bytes = grid.grid.is_byte_multiple();
    if !whole_bytes {
        relay_blocks(image, grid, scratch);
    }
    scratch[..grid.block_bytes()].fill(0);
    Ok(grid.under_full().grid)
}
