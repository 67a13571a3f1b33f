// A reader holds the image slice, its grid and the table of widths together. Each of its calls asks all the questions
// of the entry point that it stands over, 1 to 4 about the grid first, so a reader of a refused grid refuses every
// read. `check` tells of the grid.
#![tactic(auto)]

ghost use Rattle.std.specs.Prelude.{◌≡◌, ◌+◌, length, IfOk};
ghost use Rattle.refusals.specs.Refusals.{answer_number};
ghost use Rattle.layout.specs.Bands.{bands_in};
ghost use Rattle.grid.specs.Check.{grid_number};
ghost use Rattle.grid.specs.Layout.{whole_span};
ghost use Rattle.calls.specs.Orders.{rectangle, whole_number};
ghost use Rattle.calls.specs.Reads.{block_read, whole_block, whole_at, window, filled_with};
ghost use Rattle.calls.specs.Results.{shape_of};

use calls::Extent;
use grid::places::Span;
use grid::{AcceptedGrid, Grid};
use refusals::Refusal;
use widths::Widths;
use windows::Rectangle;

#[derive(Clone, Copy)]
pub struct Reader<'a> {
    image: &'a [u8],
    grid: Grid,
    widths: &'a Widths,
}

impl<'a> Reader<'a> {
    pub fn new(image: &'a [u8], grid: Grid, widths: &'a Widths) -> Reader<'a>
        ensures { result ≡ record { image = image.entry; grid = grid; widths = widths.entry } }
    {
        Reader {
            image,
            grid,
            widths,
        }
    }

    // Questions 1 to 4.
    pub fn check(self) -> Result<AcceptedGrid, Refusal>
        ensures number { answer_number result ≡ grid_number self.entry.widths.now self.entry.grid }
        ensures same { IfOk result (λ a. a.grid ≡ self.entry.grid) }
    {
        self.grid.check(self.widths)
    }

    // The samples of a block, as `reading::decode_block` gives them.
    pub fn decode_block(
        self,
        block_row: u32,
        block_col: u32,
        resolution_level: u32,
        asked: Option<&[u32]>,
        out: &mut [u8],
    ) -> Result<Extent, Refusal>
        ensures { filled_with (shape_of result) out.new
            ≡ block_read self.entry.widths.now self.entry.grid self.entry.image.now block_row block_col
            resolution_level (bands_in asked.entry) out.old }
    {
        reading::decode_block(
            self.image,
            self.grid,
            self.widths,
            block_row,
            block_col,
            resolution_level,
            asked,
            out,
        )
    }

    // The samples of a rectangle of the picture, as `windows::read_window` gives them.
    pub fn read_window(
        self,
        area: Rectangle,
        asked: Option<&[u32]>,
        out: &mut [u8],
    ) -> Result<Extent, Refusal>
        ensures { filled_with (shape_of result) out.new
            ≡ window self.entry.widths.now self.entry.grid self.entry.image.now
            (rectangle area.row area.column area.rows area.columns (bands_in asked.entry)) out.old }
    {
        windows::read_window(self.image, self.grid, self.widths, area, asked, out)
    }

    // Where the whole nominal block lies in the image.
    pub fn find_whole(self, block_row: u32, block_col: u32) -> Result<Span, Refusal>
        ensures number { answer_number result
            ≡ whole_number self.entry.widths.now self.entry.grid (length self.entry.image.now) block_row block_col }
        ensures span { IfOk result (λ s. s ≡ whole_span self.entry.grid block_row block_col) }
    {
        reading::whole::find_whole(self.image, self.grid, self.widths, block_row, block_col)
    }

    // The bytes of the whole nominal block: that part of the image itself, and no copy of it.
    pub fn whole_block(self, block_row: u32, block_col: u32) -> &'a [u8]
        ensures bytes { result.now
            ≡ whole_block self.entry.widths.now self.entry.grid self.entry.image.now block_row block_col }
        ensures place { (result.ref_ptr.0 ≡ self.entry.image.ref_ptr.0)
            × (result.ref_ptr.1 ≡ self.entry.image.ref_ptr.1
            + whole_at self.entry.widths.now self.entry.grid (length self.entry.image.now) block_row block_col) }
    {
        reading::whole::whole_block(self.image, self.grid, self.widths, block_row, block_col)
    }
}

// The samples of a block by a reader that is made for the call, for callers that have the image, the grid and the table
// apart.
pub fn read_block(
    image: &[u8],
    grid: Grid,
    widths: &Widths,
    block_row: u32,
    block_col: u32,
    resolution_level: u32,
    asked: Option<&[u32]>,
    out: &mut [u8],
) -> Result<Extent, Refusal>
    ensures { filled_with (shape_of result) out.new
        ≡ block_read widths.now grid image.now block_row block_col resolution_level (bands_in asked.entry) out.old }
{
    Reader::new(image, grid, widths).decode_block(
        block_row,
        block_col,
        resolution_level,
        asked,
        out,
    )
}
