// The cube: sample (band, row, column) is band * 256 + row * 16 + column.
ghost use Rattle.std.specs.Prelude.{◌+◌, ◌*◌, ◌<◌, ◌≤◌};

use calls::Extent;
use grid::{EdgeRule, Grid};
use layout::InterleaveMode;
use refusals::Refusal;
use widths::Widths;

// The table of widths that each call is handed.
static STANDARD: Widths = Widths::STANDARD;

// The rows and columns of the cube that a block has.
#[derive(Clone, Copy)]
struct Block {
    top: u16,
    left: u16,
    rows: u16,
    columns: u16,
    ghost inside: { (top + rows ≤ 5) × (left + columns ≤ 7) },
    ghost some: { (0 < rows) × (0 < columns) },
    ghost within: { (rows ≤ 3) × (columns ≤ 4) },
    ghost few: { rows * columns ≤ 12 },
}

fn block_at(row: u32, column: u32) -> Block
    ensures { (0 < result.rows) × (0 < result.columns) × (result.rows ≤ 3) × (result.columns ≤ 4) }
{
    let (top, rows) = if row == 0 { (0, 3) } else { (3, 2) };
    let (left, columns) = if column == 0 { (0, 4) } else { (4, 3) };
    Block {
        top,
        left,
        rows,
        columns,
    }
}

// Sample (band, row, column) of the cube, in 12 bits.
fn value(band: u16, row: u16, column: u16) -> u16
    requires { (band < 3) × (row < 5) × (column < 7) }
    ensures { result < 4096 }
{
    band * 256 + row * 16 + column
}

impl Block {
    // Bytes of its data: 3 bands, 2 bytes a sample.
    fn data_bytes(self) -> usize
        ensures { result ≤ 72 }
    {
        6 * (self.rows as usize * self.columns as usize)
    }

    // Its samples, band by band and row by row, each in two bytes.
    fn samples(self) -> [u8; 72] {
        let mut bytes = [0u8; 72];
        let (cells, _) = bytes.as_chunks_mut::<2>();
        let mut cells = cells.iter_mut();
        for band in 0..3 {
            for row in self.top..self.top + self.rows {
                for column in self.left..self.left + self.columns {
                    if let Some(cell) = cells.next() {
                        *cell = value(band, row, column).to_be_bytes();
                    }
                }
            }
        }
        bytes
    }
}

// The cube's image and the marks of its blocks.
#[derive(Clone, Copy)]
pub struct Cube {
    mode: InterleaveMode,
    image: [u8; 216],
    marks: [u64; 1],
}

impl Cube {
    fn grid(&self) -> Grid {
        Grid::new(5, 7, 3, 12, self.mode, EdgeRule::Tight, 4, 3)
    }

    fn write_block(&mut self, row: u32, column: u32) -> Result<(), Refusal> {
        let grid = self.grid();
        let block = block_at(row, column);
        let shape = Extent {
            bands: 3,
            rows: block.rows as usize,
            columns: block.columns as usize,
        };
        writing::encode_block(
            &mut self.image,
            &mut self.marks,
            grid,
            &STANDARD,
            row,
            column,
            shape,
            &block.samples()[..block.data_bytes()],
        )
    }

    // The cube with all blocks written but the one at block row 1, block column 0.
    pub fn all_but_one(mode: InterleaveMode) -> Result<Cube, Refusal> {
        let mut cube = Cube {
            mode,
            image: [0; 216],
            marks: [0; 1],
        };
        let grid = cube.grid();
        writing::start(&mut cube.image, &mut cube.marks, grid, &STANDARD)?;
        cube.write_block(0, 0)?;
        cube.write_block(0, 1)?;
        cube.write_block(1, 1)?;
        Ok(cube)
    }

    // The cube with all blocks written.
    pub fn whole(mode: InterleaveMode) -> Result<Cube, Refusal> {
        let mut cube = Self::all_but_one(mode)?;
        cube.write_block(1, 0)?;
        Ok(cube)
    }

    // Reads listed bands of a block.
    pub fn read(
        &self,
        row: u32,
        column: u32,
        list: &[u32],
        out: &mut [u8],
    ) -> Result<Extent, Refusal> {
        reading::decode_block(
            &self.image,
            self.grid(),
            &STANDARD,
            row,
            column,
            0,
            Some(list),
            out,
        )
    }

    // Asks whether the frame is done.
    pub fn finalize(&self) -> Result<(), Refusal> {
        writing::finalize(&self.image, &self.marks, self.grid(), &STANDARD)
    }
}
