// Is a block present, and where is it? The parameters are the Rust's, by a rule of the project.
ghost use Rattle.std.specs.Prelude.{◌≡◌, ◌<◌, IfOk};
ghost use Rattle.refusals.specs.Refusals.{answer_number};
ghost use Rattle.mask.specs.Table.{lookup_record};
ghost use Rattle.mask.specs.Mask.{lookup_number, record_if_any, present_of, has_block, offset_of, get_block_offset};

use crate::ImageDataMask;
use bits::bytes::get_be;
use common::pick;
use grid::{Grid, GridBlock};
use refusals::Refusal;
use widths::Widths;

// The record that lookup takes for a band of a block; in S it is the Rust's index + band.
fn lookup_record(block: GridBlock, band: u32) -> usize
    ensures { result ≡ lookup_record block.grid.grid block.row block.column band }
{
    let apart = block.grid.grid.imode.bands_apart();
    let index = block.index();
    pick(apart, index + band as usize, index)
}

impl ImageDataMask {
    // The offset that a table has for a band of a block; none where it has no block records. Asks the questions of the
    // table, 6 and 8.
    pub fn find_record(
        table: &[u8],
        grid: Grid,
        widths: &Widths,
        block_row: u32,
        block_col: u32,
        band: u32,
    ) -> Result<Option<u32>, Refusal>
        ensures number { answer_number result ≡ lookup_number widths.now grid table.now block_row block_col band }
        ensures record { IfOk result (λ r. r ≡ record_if_any grid table.now block_row block_col band) }
    {
        let (grid, head) = Self::check_table(table, grid, widths)?;
        let block = grid.block(block_row, block_col)?;
        if band >= grid.grid.bands {
            return Err(Refusal::NoSuchBand);
        }
        if head.block_mask_record_length == 0 {
            return Ok(None);
        }
        let record = lookup_record(block, band);
        let at = Self::HEADER_BYTES + head.code_bytes() + record * 4;
        Ok(Some(get_be(table, at, 4) as u32))
    }

    // Is a band of a block present? Without block records every block is.
    pub fn has_block(
        table: &[u8],
        grid: Grid,
        widths: &Widths,
        block_row: u32,
        block_col: u32,
        band: u32,
    ) -> Result<bool, Refusal>
        ensures { present_of result ≡ has_block widths.now grid table.now block_row block_col band }
    {
        let record = Self::find_record(table, grid, widths, block_row, block_col, band)?;
        Ok(record != Some(Self::EMPTY_BLOCK_OFFSET))
    }

    // The offset of a band of a block; none for an empty block, or without block records.
    pub fn get_block_offset(
        table: &[u8],
        grid: Grid,
        widths: &Widths,
        block_row: u32,
        block_col: u32,
        band: u32,
    ) -> Result<Option<u32>, Refusal>
        ensures { offset_of result ≡ get_block_offset widths.now grid table.now block_row block_col band }
    {
        let record = Self::find_record(table, grid, widths, block_row, block_col, band)?;
        Ok(record.filter(|offset| *offset != Self::EMPTY_BLOCK_OFFSET))
    }
}
