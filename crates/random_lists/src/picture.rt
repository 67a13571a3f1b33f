// A picture in plain numbers, worked out here, and its grid for the calls.
ghost use Rattle.std.specs.Prelude.{◌<◌, ◌≤◌};

use crate::random::Random;
use calls::Extent;
use grid::{EdgeRule, Grid};
use layout::InterleaveMode;

// The fields of the grid.
#[derive(Clone, Copy)]
pub struct Picture {
    pub nrows: usize,
    pub ncols: usize,
    pub bands: usize,
    pub nbpp: usize,
    pub mode: InterleaveMode,
    pub rule: EdgeRule,
    pub nppbh: usize,
    pub nppbv: usize,
    ghost sides: { (0 < nrows) × (nrows ≤ 12) × (0 < ncols) × (ncols ≤ 12) },
    ghost samples: { (0 < bands) × (bands ≤ 3) × (0 < nbpp) × (nbpp ≤ 64) },
    ghost blocks: { (0 < nppbh) × (nppbh ≤ 5) × (0 < nppbv) × (nppbv ≤ 5) },
}

// 1 to 16, 24 to 32, 40, 48, 56 or 64.
fn width(list: usize) -> usize
    ensures { (0 < result) × (result ≤ 64) }
{
    match list % 29 {
        k @ 0..16 => k + 1,
        k @ 16..25 => k + 8,
        k => 8 * (k - 20),
    }
}

// Of block i of those that are so long, how much is inside a side of the picture.
fn inside(length: usize, i: usize, side: usize) -> usize
    requires { (length ≤ 5) × (i ≤ 15) }
    ensures { result ≤ length }
{
    length.min(side.saturating_sub(length * i))
}

// A side of 1 to 12, more often short than long.
fn some_side(random: &mut Random) -> usize
    ensures { (0 < result) × (result ≤ 12) }
{
    let most = random.below(12) + 1;
    random.below(most) + 1
}

impl Picture {
    // A picture of at most 12 rows and columns and 3 bands. The width, the mode and the edge rule go by the number of
    // the list, so that 232 lists have each width in each mode under each rule.
    pub fn some(random: &mut Random, list: usize) -> Self {
        Picture {
            nrows: some_side(random),
            ncols: some_side(random),
            bands: random.below(3) + 1,
            nbpp: width(list),
            mode: InterleaveMode::ALL[list / 29 % 4],
            rule: EdgeRule::ALL[list / 116 % 2],
            nppbh: random.below(5) + 1,
            nppbv: random.below(5) + 1,
        }
    }

    pub fn grid(self) -> Grid {
        Grid::new(
            self.nrows as u32,
            self.ncols as u32,
            self.bands as u32,
            self.nbpp as u32,
            self.mode,
            self.rule,
            self.nppbh as u32,
            self.nppbv as u32,
        )
    }

    // Blocks across. `down` stands beside it: one function for both would be given both sides at each call.
    pub fn across(self) -> usize
        ensures { result ≤ 12 }
    {
        self.ncols.div_ceil(self.nppbh)
    }

    // Blocks down.
    pub fn down(self) -> usize
        ensures { result ≤ 12 }
    {
        self.nrows.div_ceil(self.nppbv)
    }

    pub fn blocks(self) -> usize
        ensures { result ≤ 144 }
    {
        self.across() * self.down()
    }

    // The bytes of a sample.
    pub fn size(self) -> usize
        ensures { (0 < result) × (result ≤ 8) }
    {
        self.nbpp.div_ceil(8)
    }

    // The bytes of a band of a block.
    pub fn band_bytes(self) -> usize
        ensures { result ≤ 200 }
    {
        (self.nppbh * self.nppbv * self.nbpp).div_ceil(8)
    }

    pub fn block_bytes(self) -> usize
        ensures { result ≤ 600 }
    {
        self.bands * self.band_bytes()
    }

    pub fn image_bytes(self) -> usize
        ensures { result ≤ 86400 }
    {
        self.blocks() * self.block_bytes()
    }

    // The bands of a block, and its rows and columns that are inside the picture.
    pub fn shape(self, row: usize, column: usize) -> Extent
        requires { (row ≤ 15) × (column ≤ 15) }
        ensures { (result.bands ≤ 3) × (result.rows ≤ 5) × (result.columns ≤ 5) }
    {
        Extent {
            bands: self.bands,
            rows: inside(self.nppbv, row, self.nrows),
            columns: inside(self.nppbh, column, self.ncols),
        }
    }
}
