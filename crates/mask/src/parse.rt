// Reading a table's header.
ghost use Rattle.std.specs.Prelude.{◌≡◌, ◌≤◌, length, IfOk};
ghost use Rattle.refusals.specs.Refusals.{answer_number};
ghost use Rattle.mask.specs.Table.{header_with, mask_size};
ghost use Rattle.mask.specs.Mask.{is_record_length, q16, q17, parse_number, IsChecked, parsed_of, parse as parse_of};

use crate::{ImageDataMask, ParsedMask, record_count};
use bits::bytes::get_be;
use grid::{AcceptedGrid, Grid};
use refusals::Refusal;
use widths::Widths;

// Is this the length of records, or 0 for none?
fn is_record_length(n: u16) -> bool
    ensures { result ≡ is_record_length n }
{
    n == 0 || n == ImageDataMask::RECORD_LENGTH
}

impl ImageDataMask {
    // Question 16: are there the bytes before the pad code?
    fn has_header(table: &[u8]) -> bool
        ensures { result ≡ q16 table.now }
    {
        Self::HEADER_BYTES <= table.len()
    }

    // The header of a table without its pad code.
    fn lengths(table: &[u8]) -> Self
        requires { 10 ≤ length table.now }
        ensures { result ≡ header_with table.now 0 }
    {
        Self {
            image_data_offset: get_be(table, 0, 4) as u32,
            block_mask_record_length: get_be(table, 4, 2) as u16,
            pad_pixel_mask_record_length: get_be(table, 6, 2) as u16,
            pad_pixel_code_length: get_be(table, 8, 2) as u16,
            pad_pixel_code: 0,
        }
    }

    // Question 17: is each record length 0 or 4?
    pub fn has_record_lengths(self) -> bool
        ensures { result ≡ q17 self }
    {
        is_record_length(self.block_mask_record_length)
            && is_record_length(self.pad_pixel_mask_record_length)
    }

    // The bytes of a table with this header.
    pub fn table_bytes(self, grid: AcceptedGrid) -> usize
        ensures { result ≡ mask_size grid.grid self }
    {
        let block = self.block_mask_record_length as usize;
        let pad = self.pad_pixel_mask_record_length as usize;
        let code = self.code_bytes();
        Self::HEADER_BYTES + code + record_count(grid) * (block + pad)
    }

    // The questions of a table: 1 to 4, 16 to 19. Gives the accepted grid, and the header without the pad code. Inlined,
    // as the grid's questions are.
    #[inline(always)]
    pub fn check_table(
        table: &[u8],
        grid: Grid,
        widths: &Widths,
    ) -> Result<(AcceptedGrid, Self), Refusal>
        ensures number { answer_number result ≡ parse_number widths.now grid table.now }
        ensures header { IfOk result (IsChecked grid table.now) }
    {
        let grid = grid.check(widths)?;
        if !Self::has_header(table) {
            return Err(Refusal::TableTooShort);
        }
        let head = Self::lengths(table);
        if !head.has_record_lengths() {
            return Err(Refusal::RecordLength);
        }
        if Self::MAX_CODE_BITS < head.pad_pixel_code_length {
            return Err(Refusal::PadCodeLength);
        }
        if table.len() < head.table_bytes(grid) {
            return Err(Refusal::TableEnds);
        }
        Ok((grid, head))
    }

    // Reads the header and the pad code of a table, and counts the bytes that it takes.
    pub fn parse(table: &[u8], grid: Grid, widths: &Widths) -> Result<ParsedMask, Refusal>
        ensures { parsed_of result ≡ parse_of widths.now grid table.now }
    {
        let (grid, mut mask) = Self::check_table(table, grid, widths)?;
        let used = mask.table_bytes(grid);
        let size = mask.code_bytes();
        mask.pad_pixel_code = get_be(table, Self::HEADER_BYTES, size) as u32;
        Ok(ParsedMask { mask, used })
    }
}
