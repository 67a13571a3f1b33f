// The questions of the calls that write. The parameters are the Rust's, by a rule of the project.
ghost use Rattle.std.specs.Prelude.{◌≡◌, ◌*◌, leb, length, IfOk};
ghost use Rattle.refusals.specs.Refusals.{answer_number};
ghost use Rattle.grid.specs.Sizes.{band_bytes};
ghost use Rattle.grid.specs.Internal.Blocks.{IsBlock};
ghost use Rattle.calls.specs.Orders.{start_number, skip_number, progress_number, q26, write_number, q27, relay_number};

use calls::Extent;
use fits::all_fit;
use grid::{AcceptedGrid, EdgeRule, Grid, GridBlock};
use refusals::Refusal;
use widths::Widths;

// Questions 1 to 4 and 12, for so many mark words.
pub fn check_marks(grid: Grid, widths: &Widths, words: usize) -> Result<AcceptedGrid, Refusal>
    ensures number { answer_number result ≡ progress_number widths.now grid words }
    ensures same { IfOk result (λ a. a.grid ≡ grid) }
{
    let grid = grid.check(widths)?;
    if !marks::has_words(words, grid.blocks()) {
        return Err(Refusal::MarksTooShort);
    }
    Ok(grid)
}

// Questions 1 to 4, 11 and 12, for an image of so many bytes and so many mark words.
pub fn check_buffers(
    grid: Grid,
    widths: &Widths,
    image: usize,
    words: usize,
) -> Result<AcceptedGrid, Refusal>
    ensures number { answer_number result ≡ start_number widths.now grid image words }
    ensures same { IfOk result (λ a. a.grid ≡ grid) }
{
    let grid = grid.check(widths)?;
    if !grid.fits_in(image) {
        return Err(Refusal::ImageTooShort);
    }
    if !marks::has_words(words, grid.blocks()) {
        return Err(Refusal::MarksTooShort);
    }
    Ok(grid)
}

// Question 27: is the edge rule still tight?
fn is_tight(edges: EdgeRule) -> bool
    ensures { result ≡ q27 edges }
{
    matches!(edges, EdgeRule::Tight)
}

// Question 9 of a scratch: has it a block's bytes?
fn holds_block(grid: AcceptedGrid, scratch: usize) -> bool
    ensures { result ≡ leb (grid.grid.bands * band_bytes grid.grid) scratch }
{
    grid.block_bytes() <= scratch
}

// Questions 1 to 4, 11, 12 and 27, then 9 of a scratch of so many bytes.
pub fn check_relay(
    grid: Grid,
    widths: &Widths,
    image: usize,
    words: usize,
    scratch: usize,
) -> Result<AcceptedGrid, Refusal>
    ensures number { answer_number result ≡ relay_number widths.now grid image words scratch }
    ensures same { IfOk result (λ a. a.grid ≡ grid) }
{
    let grid = check_buffers(grid, widths, image, words)?;
    let tight = is_tight(grid.grid.edges);
    if !tight {
        return Err(Refusal::AlreadyFull);
    }
    if !holds_block(grid, scratch) {
        return Err(Refusal::OutputTooShort);
    }
    Ok(grid)
}

// Questions 1 to 4, 11, 12 and 6.
pub fn check_block(
    grid: Grid,
    widths: &Widths,
    image: usize,
    words: usize,
    block_row: u32,
    block_col: u32,
) -> Result<GridBlock, Refusal>
    ensures number { answer_number result ≡ skip_number widths.now grid image words block_row block_col }
    ensures block { IfOk result (IsBlock grid block_row block_col) }
{
    let grid = check_buffers(grid, widths, image, words)?;
    grid.block(block_row, block_col)
}

// The same, then questions 13, 14 and 26.
pub fn check_write(
    grid: Grid,
    widths: &Widths,
    image: usize,
    words: usize,
    block_row: u32,
    block_col: u32,
    shape: Extent,
    data: &[u8],
) -> Result<GridBlock, Refusal>
    ensures number { answer_number result ≡ write_number widths.now grid image words block_row block_col
        shape.bands shape.rows shape.columns (length «data».now) (q26 grid «data».now) }
    ensures block { IfOk result (IsBlock grid block_row block_col) }
{
    let block = check_block(grid, widths, image, words, block_row, block_col)?;
    let extent = Extent {
        bands: grid.bands as usize,
        rows: block.rows(),
        columns: block.columns(),
    };
    if shape != extent {
        return Err(Refusal::OtherShape);
    }
    let size = block.grid.sample_bytes();
    if data.len() != shape.bands * shape.rows * shape.columns * size {
        return Err(Refusal::DataLength);
    }
    if !all_fit(data, size, grid.nbpp as usize) {
        return Err(Refusal::SampleBits);
    }
    Ok(block)
}
