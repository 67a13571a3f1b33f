// The mask from marks.
ghost use Rattle.std.specs.Prelude.{◌≡◌, ◌*◌, ◌≤◌, length, IfOk};
ghost use Rattle.refusals.specs.Refusals.{answer_number};
ghost use Rattle.common.specs.Over.{over};
ghost use Rattle.grid.specs.Sizes.{blocks};
ghost use Rattle.mask.specs.Table.{records, filled_block};
ghost use Rattle.mask.specs.Mask.{from_marks_number, mark_records, marks_with, parsed_of, from_provided_blocks};

use crate::{ImageDataMask, ParsedMask, record_count};
use common::pick;
use grid::{AcceptedGrid, Grid};
use marks::{has_words, is_marked};
use refusals::Refusal;
use widths::Widths;

// The block whose record k is filled; in S record index × bands + band is the block's.
fn filled_block(grid: AcceptedGrid, k: usize) -> usize
    ensures { result ≡ filled_block grid.grid k }
{
    let grid = grid.grid;
    pick(grid.imode.bands_apart(), k / grid.bands as usize, k)
}

// Fills one word a record: 0 for a marked block, all ones for another.
fn fill_records(marks: &[u64], grid: AcceptedGrid, out: &mut [u32])
    requires { (blocks grid.grid ≤ 64 * length marks.now) × (records grid.grid ≤ length out.old) }
    ensures { out.new ≡ over out.old 0 (mark_records grid.grid marks.now) }
{
    let words = &mut out[..record_count(grid)];
    for (k, word) in words.iter_mut().enumerate() {
        *word = if is_marked(marks, filled_block(grid, k)) {
            0
        } else {
            ImageDataMask::EMPTY_BLOCK_OFFSET
        };
    }
}

impl ImageDataMask {
    // The questions of the mask from marks: 1 to 4, 12 and 9, for so many mark words and so many lent words.
    fn check_marks(
        grid: Grid,
        widths: &Widths,
        words: usize,
        room: usize,
    ) -> Result<AcceptedGrid, Refusal>
        ensures number { answer_number result ≡ from_marks_number widths.now grid words room }
        ensures same { IfOk result (λ a. a.grid ≡ grid) }
    {
        let grid = grid.check(widths)?;
        if !has_words(words, grid.blocks()) {
            return Err(Refusal::MarksTooShort);
        }
        if room < record_count(grid) {
            return Err(Refusal::OutputTooShort);
        }
        Ok(grid)
    }

    // The mask of a picture of which the marked blocks are provided: record lengths 4 and 0, no code, a word a record.
    pub fn from_provided_blocks(
        marks: &[u64],
        grid: Grid,
        widths: &Widths,
        out: &mut [u32],
    ) -> Result<ParsedMask, Refusal>
        ensures { marks_with (parsed_of result) out.new
            ≡ from_provided_blocks widths.now grid marks.now out.old }
    {
        let grid = Self::check_marks(grid, widths, marks.len(), out.len())?;
        fill_records(marks, grid, out);
        let mask = Self {
            image_data_offset: 0,
            block_mask_record_length: Self::RECORD_LENGTH,
            pad_pixel_mask_record_length: 0,
            pad_pixel_code_length: 0,
            pad_pixel_code: 0,
        };
        Ok(ParsedMask {
            mask,
            used: record_count(grid),
        })
    }
}
