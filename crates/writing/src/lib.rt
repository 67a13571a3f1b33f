// Writing a frame into a lent image, with a mark for each block that was written or skipped. The parameters are the
// Rust's, by a rule of the project.
#![tactic(auto)]

ghost use Rattle.std.specs.Prelude.{◌≡◌};
ghost use Rattle.calls.specs.Results.{answer_of, progress_of};
ghost use Rattle.calls.specs.Writes.{frame_out, start as start_of, write, skip, progress as progress_by, finish};

use calls::Extent;
use grid::Grid;
use refusals::Refusal;

mod check;
mod edges;

use crate::check::{check_block, check_buffers, check_marks, check_write};
pub use crate::edges::relay;
use moves::store::store_block;
use widths::Widths;

// Starts a frame: clears the image and the words that hold the grid's marks. The surplus of longer buffers is kept.
pub fn start(
    image: &mut [u8],
    marks: &mut [u64],
    grid: Grid,
    widths: &Widths,
) -> Result<(), Refusal>
    ensures { frame_out (answer_of result) image.new marks.new ≡ start_of widths.now grid image.old marks.old }
{
    let grid = check_buffers(grid, widths, image.len(), marks.len())?;
    let bytes = grid.image_bytes();
    let words = marks::mark_words(grid.blocks());
    image[..bytes].fill(0);
    marks[..words].fill(0);
    Ok(())
}

// Stores the samples of a block, which stand in `data` band by band, row by row, and marks it. A block may be written
// again. A sample with a bit above NBPP is refused.
pub fn encode_block(
    image: &mut [u8],
    marks: &mut [u64],
    grid: Grid,
    widths: &Widths,
    block_row: u32,
    block_col: u32,
    shape: Extent,
    data: &[u8],
) -> Result<(), Refusal>
    ensures { frame_out (answer_of result) image.new marks.new ≡ write widths.now grid image.old marks.old
        block_row block_col shape.bands shape.rows shape.columns «data».now }
{
    let block = check_write(
        grid,
        widths,
        image.len(),
        marks.len(),
        block_row,
        block_col,
        shape,
        data,
    )?;
    store_block(image, block.layout(), data);
    marks::set_mark(marks, block.index());
    Ok(())
}

// Marks a block and keeps its bytes.
pub fn skip_block(
    image: &[u8],
    marks: &mut [u64],
    grid: Grid,
    widths: &Widths,
    block_row: u32,
    block_col: u32,
) -> Result<(), Refusal>
    ensures { frame_out (answer_of result) image.now marks.new
        ≡ skip widths.now grid image.now marks.old block_row block_col }
{
    let block = check_block(grid, widths, image.len(), marks.len(), block_row, block_col)?;
    let index = block.index();
    marks::set_mark(marks, index);
    Ok(())
}

// How many blocks are marked.
pub fn progress(marks: &[u64], grid: Grid, widths: &Widths) -> Result<usize, Refusal>
    ensures { progress_of result ≡ progress_by widths.now grid marks.now }
{
    let grid = check_marks(grid, widths, marks.len())?;
    let blocks = grid.blocks();
    Ok(marks::count_marks(marks, blocks))
}

// Is every block marked? Else the first that is not, by rows, then columns, beside 15. Changes nothing.
pub fn finalize(image: &[u8], marks: &[u64], grid: Grid, widths: &Widths) -> Result<(), Refusal>
    ensures { answer_of result ≡ finish widths.now grid image.now marks.now }
{
    check_buffers(grid, widths, image.len(), marks.len())?;
    match marks::first_unmarked(marks, grid.nbpr as usize, grid.nbpc as usize) {
        None => Ok(()),
        Some((row, column)) => Err(Refusal::UnmarkedBlock { row, column }),
    }
}
