// Writing a table.
ghost use Rattle.std.specs.Prelude.{◌≡◌, ◌+◌, ◌*◌, ◌≤◌, length, IfOk};
ghost use Rattle.refusals.specs.Refusals.{answer_number};
ghost use Rattle.common.specs.Over.{over};
ghost use Rattle.mask.specs.Table.{mask_size, length_bytes, offset_bytes};
ghost use Rattle.mask.specs.Mask.{q20, q22, mask_write_number, written_with, written_of, to_bytes};

use crate::{ImageDataMask, record_count};
use bits::bytes::put_be;
use common::pick;
use grid::{AcceptedGrid, Grid};
use refusals::Refusal;
use widths::Widths;

// Puts the offsets of a list at index `at` of `out` on, four bytes each.
fn put_offsets(list: &[u32], out: &mut [u8], at: usize)
    requires { at + length list.now * 4 ≤ length out.old }
    ensures { out.new ≡ over out.old at (offset_bytes list.now) }
{
    for (k, offset) in list.iter().enumerate() {
        put_be(out, at + k * 4, 4, *offset as u64);
    }
}

impl ImageDataMask {
    // Question 20: does the code's number fit its bytes, and is it 0 for length 0?
    fn code_fits(self) -> bool
        ensures { result ≡ q20 self }
    {
        let bytes = self.code_bytes();
        bytes >= 4 || (self.pad_pixel_code as u64) < 1 << (8 * bytes)
    }

    // Question 22: has each offset list one entry a record, or none for length 0?
    fn lists_fit(self, grid: AcceptedGrid, blocks: usize, pads: usize) -> bool
        ensures { result ≡ q22 grid.grid self blocks pads }
    {
        let records = record_count(grid);
        blocks == pick(self.block_mask_record_length == 0, 0, records)
            && pads == pick(self.pad_pixel_mask_record_length == 0, 0, records)
    }

    // The questions of a mask write, for lists of so many entries and an output of so many bytes. Gives the table's
    // size.
    fn check_write(
        self,
        grid: Grid,
        widths: &Widths,
        blocks: usize,
        pads: usize,
        room: usize,
    ) -> Result<usize, Refusal>
        ensures number { answer_number result ≡ mask_write_number widths.now grid self blocks pads room }
        ensures size { IfOk result (λ size. size ≡ mask_size grid self) }
    {
        let grid = grid.check(widths)?;
        if !self.has_record_lengths() {
            return Err(Refusal::RecordLength);
        }
        if Self::MAX_CODE_BITS < self.pad_pixel_code_length {
            return Err(Refusal::PadCodeLength);
        }
        if !self.code_fits() {
            return Err(Refusal::PadCode);
        }
        let size = self.table_bytes(grid);
        if Self::MAX_TABLE_BYTES < size {
            return Err(Refusal::TableTooLarge);
        }
        if !self.lists_fit(grid, blocks, pads) {
            return Err(Refusal::OffsetCount);
        }
        if room < size {
            return Err(Refusal::OutputTooShort);
        }
        Ok(size)
    }

    // Puts the bytes before the pad code, with this number in IMDATOFF.
    fn put_lengths(self, offset: usize, out: &mut [u8])
        requires { 10 ≤ length out.old }
        ensures { out.new ≡ over out.old 0 (length_bytes offset self) }
    {
        put_be(out, 0, 4, offset as u64);
        put_be(out, 4, 2, self.block_mask_record_length as u64);
        put_be(out, 6, 2, self.pad_pixel_mask_record_length as u64);
        put_be(out, 8, 2, self.pad_pixel_code_length as u64);
    }

    // Writes a table with this header and the two lists of offsets; its own size goes to IMDATOFF. Gives the bytes
    // written.
    pub fn to_bytes(
        self,
        block_offsets: &[u32],
        pad_pixel_offsets: &[u32],
        grid: Grid,
        widths: &Widths,
        out: &mut [u8],
    ) -> Result<usize, Refusal>
        ensures { written_with (written_of result) out.new
            ≡ to_bytes widths.now grid self block_offsets.now pad_pixel_offsets.now out.old }
    {
        let size = self.check_write(
            grid,
            widths,
            block_offsets.len(),
            pad_pixel_offsets.len(),
            out.len(),
        )?;
        self.put_lengths(size, out);
        let code = self.code_bytes();
        put_be(out, Self::HEADER_BYTES, code, self.pad_pixel_code as u64);
        let at = Self::HEADER_BYTES + code;
        put_offsets(block_offsets, out, at);
        put_offsets(pad_pixel_offsets, out, at + block_offsets.len() * 4);
        Ok(size)
    }
}
