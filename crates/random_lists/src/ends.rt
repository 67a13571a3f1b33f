// A window, and question 7 from document 01, "Where a sample lies": how many bytes of the image it needs.
ghost use Rattle.std.specs.Prelude.{◌+◌, ◌<◌, ◌≤◌};

use crate::picture::Picture;
use layout::InterleaveMode;

// A rectangle of the picture, and the bands that are asked for: all, or those of a list.
#[derive(Clone, Copy)]
pub struct Window<'a> {
    pub row: usize,
    pub column: usize,
    pub rows: usize,
    pub columns: usize,
    pub bands: Option<&'a [u32]>,
    ghost start: { (row ≤ 12) × (column ≤ 12) },
    ghost shape: { (rows ≤ 13) × (columns ≤ 13) },
}

impl Picture {
    // Where the bytes of a band of a block begin: in S the blocks of a band stand together, else the bands of a block.
    fn band_start(self, index: usize, b: usize) -> usize
        requires { (index ≤ 195) × (b < self.bands) }
        ensures { result ≤ 200000 }
    {
        match self.mode {
            InterleaveMode::S => (b * self.blocks() + index) * self.band_bytes(),
            _ => (index * self.bands + b) * self.band_bytes(),
        }
    }

    // How many samples of a block in B, P or R stand before one, at byte multiples, and in S how many of its band.
    fn samples_before(self, b: usize, r: usize, c: usize) -> usize
        requires { (b ≤ 2) × (r ≤ 4) × (c ≤ 4) }
        ensures { result ≤ 100 }
    {
        match self.mode {
            InterleaveMode::B => (b * self.nppbv + r) * self.nppbh + c,
            InterleaveMode::P => (r * self.nppbh + c) * self.bands + b,
            InterleaveMode::R => (r * self.bands + b) * self.nppbh + c,
            InterleaveMode::S => r * self.nppbh + c,
        }
    }

    // The end of the last actual sample of a block, or where samples are packed the end of the last run's bytes.
    fn block_end(self, row: usize, column: usize) -> usize
        requires { (row ≤ 15) × (column ≤ 15) }
    {
        let index = row * self.across() + column;
        let b = self.bands - 1;
        if self.nbpp % 8 != 0 {
            return self.band_start(index, b) + self.band_bytes();
        }
        let shape = self.shape(row, column);
        let r = shape.rows.saturating_sub(1);
        let c = shape.columns.saturating_sub(1);
        let first = match self.mode {
            InterleaveMode::S => self.band_start(index, b),
            _ => self.band_start(index, 0),
        };
        first + (self.samples_before(b, r, c) + 1) * self.size()
    }
}

// Does a length from `start` on cross block i of those that are so long?
fn crosses(start: usize, length: usize, side: usize, i: usize) -> bool
    requires positive { 0 < side }
    requires small { (start ≤ 12) × (length ≤ 13) }
{
    start / side <= i && i <= (start + length).saturating_sub(1) / side
}

impl<'a> Window<'a> {
    // The bands that are asked for.
    pub fn asked(self, p: Picture) -> &'a [u32] {
        match self.bands {
            Some(list) => list,
            None => &[0, 1, 2][..p.bands],
        }
    }

    pub fn samples(self, p: Picture) -> usize {
        self.asked(p).len().saturating_mul(self.rows * self.columns)
    }

    // How many bytes the window fills.
    pub fn bytes(self, p: Picture) -> usize {
        self.samples(p).saturating_mul(p.size())
    }

    fn crosses(self, p: Picture, row: usize, column: usize) -> bool {
        crosses(self.row, self.rows, p.nppbv, row)
            && crosses(self.column, self.columns, p.nppbh, column)
    }

    // The end of the blocks that the window crosses, of sixteen rows of sixteen blocks.
    pub fn end(self, p: Picture) -> usize {
        (0..256)
            .filter(|&i| self.crosses(p, i / 16, i % 16))
            .map(|i| p.block_end(i / 16, i % 16))
            .max()
            .unwrap_or(0)
    }
}
