// What the plain frame answers to the calls, from document 01, "Questions before work", and document 02.
ghost use Rattle.std.specs.Prelude.{◌≤◌};

use crate::ends::Window;
use crate::frame::Frame;
use crate::plain::Plain;
use calls::Extent;
use grid::{EdgeRule, Grid};
use refusals::Refusal;
use widths::Widths;

// What a write is told: the block, and the shape of its data.
#[derive(Clone, Copy)]
pub struct Write {
    pub row: usize,
    pub column: usize,
    pub shape: Extent,
    ghost block: { (row ≤ 13) × (column ≤ 13) },
    ghost small: { (shape.bands ≤ 4) × (shape.rows ≤ 6) × (shape.columns ≤ 6) },
}

impl Write {
    // How many samples the data has.
    pub fn samples(self) -> usize
        ensures { result ≤ 144 }
    {
        self.shape.bands * self.shape.rows * self.shape.columns
    }
}

impl Plain {
    // Question 2: the table's entry for the width has to be the bytes of a sample.
    fn check_width(&self, widths: &Widths) -> Result<(), Refusal> {
        let p = self.picture;
        if widths.entries[p.nbpp] as usize != p.size() {
            return Err(Refusal::Width);
        }
        Ok(())
    }

    // Questions 2 and 12.
    pub fn progress(&self, frame: &Frame<'_>) -> Result<usize, Refusal> {
        self.check_width(frame.widths)?;
        if frame.marks.len() < self.picture.blocks().div_ceil(64) {
            return Err(Refusal::MarksTooShort);
        }
        Ok(self.count())
    }

    // Questions 2, 11 and 12.
    fn check_buffers(&self, frame: &Frame<'_>) -> Result<(), Refusal> {
        self.check_width(frame.widths)?;
        if frame.image.len() < self.picture.image_bytes() {
            return Err(Refusal::ImageTooShort);
        }
        self.progress(frame)?;
        Ok(())
    }

    // The same; after it all numbers are 0 and no block is reached.
    pub fn start(&mut self, frame: &Frame<'_>) -> Result<(), Refusal> {
        self.check_buffers(frame)?;
        *self = Plain::new(self.picture);
        Ok(())
    }

    // Questions 2, 11, 12 and 6.
    fn check_block(&self, frame: &Frame<'_>, row: usize, column: usize) -> Result<(), Refusal> {
        self.check_buffers(frame)?;
        if row >= self.picture.down() || column >= self.picture.across() {
            return Err(Refusal::BlockOutsideGrid);
        }
        Ok(())
    }

    // The same; a block that is skipped is reached.
    pub fn skip(&mut self, frame: &Frame<'_>, row: usize, column: usize) -> Result<(), Refusal> {
        self.check_block(frame, row, column)?;
        self.reach(row, column);
        Ok(())
    }

    // The same, then questions 13, 14 and 26; a block that is written is reached.
    pub fn write(&mut self, frame: &Frame<'_>, w: Write, data: &[u8]) -> Result<(), Refusal> {
        let p = self.picture;
        self.check_block(frame, w.row, w.column)?;
        if w.shape != p.shape(w.row, w.column) {
            return Err(Refusal::OtherShape);
        }
        if data.len() != w.samples() * p.size() {
            return Err(Refusal::DataLength);
        }
        if self.has_unfit(data) {
            return Err(Refusal::SampleBits);
        }
        self.set_block(w, data);
        self.reach(w.row, w.column);
        Ok(())
    }

    // Questions 2, 11 and 12, then 15 of the reached blocks.
    pub fn finish(&self, frame: &Frame<'_>) -> Result<(), Refusal> {
        self.check_buffers(frame)?;
        match self.first() {
            Some((row, column)) => Err(Refusal::UnmarkedBlock { row, column }),
            None => Ok(()),
        }
    }

    // Questions 2, 11, 12 and 27, then 9 of a scratch of so many bytes; the picture is under full then.
    pub fn relay(&mut self, frame: &Frame<'_>, scratch: usize) -> Result<Grid, Refusal> {
        self.check_buffers(frame)?;
        if self.picture.rule == EdgeRule::Full {
            return Err(Refusal::AlreadyFull);
        }
        if scratch < self.picture.block_bytes() {
            return Err(Refusal::OutputTooShort);
        }
        self.picture.rule = EdgeRule::Full;
        Ok(self.picture.grid())
    }

    // Questions 2, 10, 7, 8 and 9, for an image and an output of so many bytes.
    pub fn window(
        &self,
        image: usize,
        widths: &Widths,
        w: Window<'_>,
        room: usize,
    ) -> Result<Extent, Refusal> {
        let p = self.picture;
        self.check_width(widths)?;
        if w.rows < 1
            || w.columns < 1
            || w.row + w.rows > p.nrows
            || w.column + w.columns > p.ncols
        {
            return Err(Refusal::WindowOutsidePicture);
        }
        if image < w.end(p) {
            return Err(Refusal::ImageEnds);
        }
        if w.asked(p).iter().any(|&b| b as usize >= p.bands) {
            return Err(Refusal::NoSuchBand);
        }
        if room < w.bytes(p) {
            return Err(Refusal::OutputTooShort);
        }
        Ok(Extent {
            bands: w.asked(p).len(),
            rows: w.rows,
            columns: w.columns,
        })
    }
}
