// The counts of a block's samples, and the questions of a reordering.
ghost use Rattle.std.specs.Prelude.{◌≡◌, IfOk};
ghost use Rattle.refusals.specs.Refusals.{answer_number};
ghost use Rattle.layout.specs.Bands.{bands_in};
ghost use Rattle.interleave.specs.Interleave.{output_of, reorder_number};

use crate::Output;
use common::product_fits;
use grid::Grid;
use layout::bands::{band_count, bands_below};
use refusals::Refusal;

// The rows, columns and bands of a block, and the bytes of a sample.
#[derive(Clone, Copy, Debug, PartialEq, Eq)]
pub struct Counts {
    pub rows: u32,
    pub columns: u32,
    pub bands: u32,
    pub size: usize,
}

impl Counts {
    pub fn new(rows: u32, columns: u32, bands: u32, size: usize) -> Self
        ensures { result ≡ record { rows = rows; columns = columns; bands = bands; size = size } }
    {
        Self {
            rows,
            columns,
            bands,
            size,
        }
    }

    // The questions of a reordering, for so many bytes of data and of output, and what it fills where they accept it.
    pub fn check(self, data: usize, asked: Option<&[u32]>, room: usize) -> Result<Output, Refusal>
        ensures number { answer_number result ≡ reorder_number (bands_in asked.entry) self.rows self.columns self.bands
            self.size «data» room }
        ensures filled { IfOk result (λ o. o ≡ output_of (bands_in asked.entry) self.rows self.columns self.bands
            self.size) }
    {
        let size = self.size;
        if size < 1 || 8 < size {
            return Err(Refusal::Width);
        }
        let pixels = self.rows as usize * self.columns as usize;
        let pixel = self.bands as usize * size;
        if !product_fits(pixels, pixel, Grid::MAX_IMAGE_BYTES as usize) {
            return Err(Refusal::TooLarge);
        }
        if data != pixels * pixel {
            return Err(Refusal::DataLength);
        }
        if !bands_below(self.bands, asked) {
            return Err(Refusal::NoSuchBand);
        }
        let bands = band_count(self.bands, asked);
        // where no band is asked for, the product need not fit
        let band = if bands == 0 { 0 } else { pixels * size };
        if !product_fits(bands, band, room) {
            return Err(Refusal::OutputTooShort);
        }
        Ok(Output {
            bands,
            bytes: bands * band,
        })
    }
}
