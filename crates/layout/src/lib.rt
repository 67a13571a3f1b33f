// A block's layout as a value: where each sample of a block lies in some bytes, whatever picture or file these bytes
// are of.
#![tactic(auto)]

ghost use Rattle.std.specs.Prelude.{◌≡◌, ◌+◌, ◌*◌, ◌<◌, ◌≤◌, ◌^◌};
ghost use Rattle.layout.specs.Order.{bands_apart};
ghost use Rattle.layout.specs.Internal.Layout.{sample_bytes, byte_multiple, ordinal_in, run_size};
ghost use Rattle.layout.specs.Internal.Layout.{bit_of, place, block_end, Sample, Sound};
ghost use Rattle.layout.specs.Internal.Spacing.{has_strides, strides_of, column_steps, rest_of_run};

use std::fmt;

pub mod bands;

// IMODE: how the bands of a picture are interleaved.
#[derive(Clone, Copy, Debug, PartialEq, Eq)]
pub enum InterleaveMode {
    // Band interleaved by block.
    B,
    // Band interleaved by pixel.
    P,
    // Band interleaved by row.
    R,
    // Band sequential.
    S,
}

impl InterleaveMode {
    pub const ALL: [InterleaveMode; 4] = [Self::B, Self::P, Self::R, Self::S];

    // Do the bands of a block lie apart, each among the same band of all blocks?
    pub fn bands_apart(self) -> bool
        ensures { result ≡ bands_apart self }
    {
        matches!(self, Self::S)
    }
}

impl fmt::Display for InterleaveMode {
    fn fmt<W: fmt::Write>(&self, f: &mut fmt::Formatter<W>) -> fmt::Result {
        write!(f, "{self:?}")
    }
}

// The samples of a block stand in the order of the mode and are cut into as many runs as bands. Soundness is no fact of
// the type, which would ask it of callers of `is_byte_multiple`; a sample is its b, r and c, as in document 01.
#[derive(Clone, Copy)]
pub struct BlockLayout {
    // The byte of run 0, the bytes from a run to the next, and the bytes of a run.
    pub first: usize,
    pub apart: usize,
    pub run_bytes: usize,
    // Actual rows and columns: those that are read and written.
    pub rows: usize,
    pub columns: usize,
    // The rows and columns that the runs hold, band by band.
    pub run_rows: usize,
    pub run_columns: usize,
    pub mode: InterleaveMode,
    pub bands: u32,
    // Bits per sample.
    pub nbpp: u32,
}

// Bits from a band, a row and a column to the next.
#[derive(Clone, Copy)]
pub struct Strides {
    pub band: usize,
    pub row: usize,
    pub column: usize,
}

// a groups of m, and c more.
fn times_plus(a: usize, m: usize, c: usize) -> usize
    requires { a * m + c < 2 ^ 64 }
    ensures { result ≡ a * m + c }
{
    a * m + c
}

impl BlockLayout {
    // s: bytes of a sample in lent data.
    pub fn sample_bytes(self) -> usize
        requires { Sound self }
        ensures { result ≡ sample_bytes self }
    {
        (self.nbpp as usize + 7) / 8
    }

    // Does a sample fill its bytes?
    pub fn is_byte_multiple(self) -> bool
        ensures { result ≡ byte_multiple self }
    {
        self.nbpp % 8 == 0
    }

    // How many samples stand before sample (b, r, c) in the order of the mode.
    pub fn sample_ordinal(self, b: usize, r: usize, c: usize) -> usize
        requires in_runs { (b < self.bands) × (r < self.run_rows) × (c < self.run_columns) }
        requires size_fits { self.bands * run_size self < 2 ^ 64 }
        ensures { result ≡ ordinal_in self b r c }
    {
        let bands = self.bands as usize;
        let rows = self.run_rows;
        let columns = self.run_columns;
        match self.mode {
            InterleaveMode::P => times_plus(times_plus(r, columns, c), bands, b),
            InterleaveMode::R => times_plus(times_plus(r, bands, b), columns, c),
            _ => times_plus(times_plus(b, rows, r), columns, c),
        }
    }

    // The first bit of the sample at place n of the order, counted from the first byte on, high bit first.
    pub fn order_place(self, n: usize) -> usize
        requires sound { Sound self }
        requires in_runs { n < self.bands * run_size self }
        ensures { result ≡ bit_of self n }
    {
        let size = self.run_rows * self.run_columns;
        let bits = self.nbpp as usize;
        let byte = self.first + n / size * self.apart;
        8 * byte + n % size * bits
    }

    // The first bit of sample (b, r, c).
    pub fn sample_place(self, b: usize, r: usize, c: usize) -> usize
        requires sound { Sound self }
        requires sample { Sample self b r c }
        ensures { result ≡ place self b r c }
    {
        self.order_place(self.sample_ordinal(b, r, c))
    }

    // Do samples stand evenly? They do where each band has a run of its own, and where runs follow each other without a
    // gap.
    pub fn has_strides(self) -> bool
        requires { Sound self }
        ensures { result ≡ has_strides self }
    {
        let bits = self.nbpp as usize;
        if 8 * self.apart == self.run_rows * self.run_columns * bits {
            return true;
        }
        match self.mode {
            InterleaveMode::P => false,
            InterleaveMode::R => false,
            _ => true,
        }
    }

    // The strides, in bits. Those of bands and rows hold where samples stand evenly, that of columns inside a run.
    pub fn strides(self) -> Strides
        requires { Sound self }
        ensures { result ≡ strides_of self }
    {
        let width = self.nbpp as usize;
        let line = self.run_columns * width;
        let pixel = self.bands as usize * width;
        match self.mode {
            InterleaveMode::B => Strides {
                band: 8 * self.apart,
                row: line,
                column: width,
            },
            InterleaveMode::P => Strides {
                band: width,
                row: self.run_columns * pixel,
                column: pixel,
            },
            InterleaveMode::R => Strides {
                band: line,
                row: self.bands as usize * line,
                column: width,
            },
            InterleaveMode::S => Strides {
                band: 8 * self.apart,
                row: line,
                column: width,
            },
        }
    }

    // How many samples of the block stand from one column to the next.
    fn column_steps(self) -> usize
        ensures { result ≡ column_steps self.mode self }
    {
        match self.mode {
            InterleaveMode::P => self.bands as usize,
            _ => 1,
        }
    }

    // How many samples of a row, from sample (b, r, c) on, are in the run of that sample, where the row goes on so
    // long.
    pub fn rest_of_run(self, b: usize, r: usize, c: usize) -> usize
        requires sound { Sound self }
        requires sample { Sample self b r c }
        ensures { result ≡ rest_of_run self b r c }
    {
        let samples = self.run_rows * self.run_columns;
        let rest = samples - self.sample_ordinal(b, r, c) % samples;
        let steps = self.column_steps();
        (rest + (steps - 1)) / steps
    }

    // Question 7: the end of the last actual sample, or at other widths than byte multiples of the last run.
    pub fn end(self) -> usize
        requires { Sound self }
        ensures { result ≡ block_end self }
    {
        let last = self.bands as usize - 1;
        if self.nbpp % 8 == 0 {
            let r = self.rows - 1;
            let c = self.columns - 1;
            self.sample_place(last, r, c) / 8 + self.sample_bytes()
        } else {
            self.first + last * self.apart + self.run_bytes
        }
    }
}
