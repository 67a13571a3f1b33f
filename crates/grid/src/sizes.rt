// Sizes of a grid and of its blocks.
ghost use Rattle.std.specs.Prelude.{◌≡◌, true, ◌-◌, ◌*◌, ◌<◌, min};
ghost use Rattle.grid.specs.Sizes.{sample_bytes, band_bytes, blocks as block_count, image_bytes, block_index};
ghost use Rattle.grid.specs.Sizes.{actual_rows, actual_columns, byte_multiple};
ghost use Rattle.grid.specs.Check.{q1};
ghost use Rattle.widths.specs.Widths.{width_taken};

use crate::{AcceptedGrid, Grid, GridBlock};

// What is inside a length of `total` of part i, where each part is `side` long.
fn part_length(total: u32, side: u32, i: usize) -> usize
    requires { i * side < total }
    ensures { result ≡ min side (total - i * side) }
{
    let side = side as usize;
    side.min(total as usize - i * side)
}

impl Grid {
    // Does a sample fill its bytes?
    pub fn is_byte_multiple(self) -> bool
        ensures { result ≡ byte_multiple self }
    {
        self.nbpp % 8 == 0
    }

    // t: bytes of a band of a block, where questions 3 and 4 are still to be asked.
    pub fn band_bytes_of_sides(self) -> usize
        requires { (q1 self ≡ true) × (width_taken self.nbpp ≡ true) }
        ensures { result ≡ band_bytes self }
    {
        let h = self.nppbh as usize;
        let v = self.nppbv as usize;
        let w = self.nbpp as usize;
        (h * v * w + 7) / 8
    }
}

impl AcceptedGrid {
    // s: bytes of a sample in lent data.
    pub fn sample_bytes(self) -> usize
        ensures { result ≡ sample_bytes self.grid }
    {
        (self.grid.nbpp as usize + 7) / 8
    }

    // t: bytes of a band of a block.
    pub fn band_bytes(self) -> usize
        ensures { result ≡ band_bytes self.grid }
    {
        self.grid.band_bytes_of_sides()
    }

    // Bytes of a block in B, P and R.
    pub fn block_bytes(self) -> usize
        ensures { result ≡ self.grid.bands * band_bytes self.grid }
    {
        self.grid.bands as usize * self.band_bytes()
    }

    // Rows of the blocks of a row of blocks that are inside the picture.
    pub fn actual_rows(self, row: usize) -> usize
        requires { row < self.grid.nbpc }
        ensures { result ≡ actual_rows self.grid row }
    {
        part_length(self.grid.nrows, self.grid.nppbv, row)
    }

    // Columns of the blocks of a column of blocks that are inside the picture.
    pub fn actual_columns(self, column: usize) -> usize
        requires { column < self.grid.nbpr }
        ensures { result ≡ actual_columns self.grid column }
    {
        part_length(self.grid.ncols, self.grid.nppbh, column)
    }

    // Blocks of the picture.
    pub fn blocks(self) -> usize
        ensures { result ≡ block_count self.grid }
    {
        self.grid.nbpr as usize * self.grid.nbpc as usize
    }

    // Bytes of the image.
    pub fn image_bytes(self) -> usize
        ensures { result ≡ image_bytes self.grid }
    {
        self.blocks() * self.grid.bands as usize * self.band_bytes()
    }
}

impl GridBlock {
    // By rows, then columns.
    pub fn index(self) -> usize
        ensures { result ≡ block_index self.grid.grid self.row self.column }
    {
        self.row * self.grid.grid.nbpr as usize + self.column
    }

    // Rows that are inside the picture.
    pub fn rows(self) -> usize
        ensures { result ≡ actual_rows self.grid.grid self.row }
    {
        self.grid.actual_rows(self.row)
    }

    // Columns that are inside the picture.
    pub fn columns(self) -> usize
        ensures { result ≡ actual_columns self.grid.grid self.column }
    {
        self.grid.actual_columns(self.column)
    }
}
