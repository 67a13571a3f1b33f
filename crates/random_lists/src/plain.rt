// The plain frame: a number for each band, row and column of the picture, and the reached blocks, in tables of fixed
// sides: 4 bands of 16 rows of 16 numbers, and 16 rows of 16 blocks.
ghost use Rattle.std.specs.Prelude.{◌<◌, ◌≤◌};

use crate::ends::Window;
use crate::picture::Picture;
use crate::questions::Write;

#[derive(Drop)]
pub struct Plain {
    pub picture: Picture,
    numbers: [u64; 1024],
    reached: [bool; 256],
}

// Where the number of a band, row and column stands.
fn place(b: usize, y: usize, x: usize) -> usize
    ensures { result < 1024 }
{
    b % 4 * 256 + y % 16 * 16 + x % 16
}

// The place of sample k in its rectangle, whose samples are listed band by band, row by row: band, row and column.
fn sample_at(k: usize, rows: usize, columns: usize) -> (usize, usize, usize)
    ensures { (result.1 ≤ rows) × (result.2 ≤ columns) }
{
    let (rows, columns) = (rows.max(1), columns.max(1));
    let line = k / columns;
    (line / rows, line % rows, k % columns)
}

// The big-endian number in some bytes.
fn number_of(sample: &[u8]) -> u64 {
    sample.iter().fold(0, |v, &byte| (v << 8) | u64::from(byte))
}

// The low bits of a number; all of it where they are none, or more than 63.
pub fn low_bits(v: u64, bits: usize) -> u64 {
    if bits < 1 || 63 < bits {
        return v;
    }
    v & (u64::MAX >> (64 - bits))
}

impl Plain {
    pub fn new(picture: Picture) -> Self {
        Plain {
            picture,
            numbers: [0; 1024],
            reached: [false; 256],
        }
    }

    // Has a sample a bit above the picture's width?
    pub fn has_unfit(&self, data: &[u8]) -> bool {
        let p = self.picture;
        data.chunks_exact(p.size())
            .map(number_of)
            .any(|v| v != low_bits(v, p.nbpp))
    }

    // Sets the numbers of a block, which `data` has band by band, row by row.
    pub fn set_block(&mut self, w: Write, data: &[u8]) {
        let p = self.picture;
        for (k, sample) in data.chunks_exact(p.size()).enumerate() {
            let (b, y, x) = sample_at(k, w.shape.rows, w.shape.columns);
            let i = place(b, p.nppbv * w.row + y, p.nppbh * w.column + x);
            self.numbers[i] = low_bits(number_of(sample), p.nbpp);
        }
    }

    // The number of sample k of a window.
    fn number(&self, w: Window<'_>, k: usize) -> u64 {
        let (i, y, x) = sample_at(k, w.rows, w.columns);
        let b = w.asked(self.picture).get(i).copied().unwrap_or(0);
        self.numbers[place(b as usize, w.row + y, w.column + x)]
    }

    // How many samples of a window's output are not the plain frame's numbers.
    pub fn wrong_samples(&self, w: Window<'_>, out: &[u8]) -> usize {
        out.chunks_exact(self.picture.size())
            .take(w.samples(self.picture))
            .enumerate()
            .filter(|&(k, sample)| number_of(sample) != self.number(w, k))
            .count()
    }

    // The block is reached.
    pub fn reach(&mut self, row: usize, column: usize) {
        self.reached[row % 16 * 16 + column % 16] = true;
    }

    // How many blocks are reached.
    pub fn count(&self) -> usize {
        self.reached.iter().filter(|&&reached| reached).count()
    }

    // The row and the column of the first block that is not reached, by rows, then columns.
    pub fn first(&self) -> Option<(usize, usize)> {
        let across = self.picture.across();
        (0..self.picture.down())
            .flat_map(|row| (0..across).map(move |column| (row, column)))
            .find(|&(row, column)| !self.reached[row * 16 + column])
    }
}
