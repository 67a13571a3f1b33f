// Reading a window: any rectangle of the picture, across blocks.
#![tactic(auto)]

ghost use Rattle.std.specs.Prelude.{◌≡◌, IfOk};
ghost use Rattle.refusals.specs.Refusals.{answer_number};
ghost use Rattle.layout.specs.Bands.{bands_in};
ghost use Rattle.calls.specs.Orders.{window_number, rectangle};
ghost use Rattle.calls.specs.Reads.{filled_with, window};
ghost use Rattle.calls.specs.Results.{shape_of};
ghost use Rattle.windows.specs.Internal.Windows.{inside};

use calls::Extent;
use common::product_fits;
use grid::{AcceptedGrid, Grid, GridBlock};
use layout::bands::{band_count, bands_below};
use refusals::Refusal;
use widths::Widths;

mod across;
mod cut;

use crate::across::read_rectangle;

// A rectangle of the picture.
#[derive(Clone, Copy, Debug, PartialEq, Eq)]
pub struct Rectangle {
    pub row: u32,
    pub column: u32,
    pub rows: u32,
    pub columns: u32,
}

// Question 10 along one side: at least one place, all inside the picture.
#[tactic(auto, unfolding(crate::specs::Internal::Windows::inside, common::specs::Tests::every))]
fn is_inside(start: u32, length: u32, side: u32) -> bool
    ensures { result ≡ inside start length side }
{
    1 <= length && start.checked_add(length).is_some_and(|end| end <= side)
}

// The questions of a window, for an image of so many bytes and an output of so many. Ends grow with a block's index,
// so question 7 is asked of the last block crossed.
fn check_window(
    image: usize,
    grid: Grid,
    widths: &Widths,
    window: Rectangle,
    asked: Option<&[u32]>,
    room: usize,
) -> Result<AcceptedGrid, Refusal>
    ensures number { answer_number result ≡ window_number widths.now grid image
        (rectangle window.row window.column window.rows window.columns (bands_in asked.entry)) room }
    ensures same { IfOk result (λ a. a.grid ≡ grid) }
{
    let accepted = grid.check(widths)?;
    if !is_inside(window.row, window.rows, grid.nrows) {
        return Err(Refusal::WindowOutsidePicture);
    }
    if !is_inside(window.column, window.columns, grid.ncols) {
        return Err(Refusal::WindowOutsidePicture);
    }
    let last = GridBlock {
        grid: accepted,
        row: ((window.row + (window.rows - 1)) / grid.nppbv) as usize,
        column: ((window.column + (window.columns - 1)) / grid.nppbh) as usize,
    };
    if image < last.end() {
        return Err(Refusal::ImageEnds);
    }
    if !bands_below(grid.bands, asked) {
        return Err(Refusal::NoSuchBand);
    }
    let plane = window.rows as usize * window.columns as usize * accepted.sample_bytes();
    if !product_fits(band_count(grid.bands, asked), plane, room) {
        return Err(Refusal::OutputTooShort);
    }
    Ok(accepted)
}

// The samples of a rectangle of the picture: the bands asked for, row by row, each sample in its big-endian bytes.
pub fn read_window(
    image: &[u8],
    grid: Grid,
    widths: &Widths,
    area: Rectangle,
    asked: Option<&[u32]>,
    out: &mut [u8],
) -> Result<Extent, Refusal>
    ensures { filled_with (shape_of result) out.new ≡ window widths.now grid image.now
        (rectangle area.row area.column area.rows area.columns (bands_in asked.entry)) out.old }
{
    let accepted = check_window(image.len(), grid, widths, area, asked, out.len())?;
    read_rectangle(image, accepted, area, asked, out);
    Ok(Extent {
        bands: band_count(grid.bands, asked),
        rows: area.rows as usize,
        columns: area.columns as usize,
    })
}
