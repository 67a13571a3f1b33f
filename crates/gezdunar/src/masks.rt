// The image data mask table across the boundary.
ghost use Rattle.std.specs.Prelude.{◌≡◌};
ghost use Rattle.widths.specs.Widths.{table_of};
ghost use Rattle.mask.specs.Mask.{parse, has_block, get_block_offset, to_bytes, from_provided_blocks};
ghost use Rattle.gezdunar.specs.Boundary.{named_grid, on_known, header_of, written_out, marks_out};
ghost use Rattle.gezdunar.specs.Boundary.{unknown_parsed, unknown_present, unknown_offset, unknown_written};

use crate::GridNumbers;
use crate::names::named_grid;
use mask::{BlockOffset, ImageDataMask, Parsed, Present, Written};
use refusals::Refusal;
use widths::Widths;

// Reads a table's header and pad code.
#[unsafe(no_mangle)]
pub extern "C" fn gezdunar_mask_parse(table: &[u8], numbers: GridNumbers, widths: &[u8]) -> Parsed
    ensures { result ≡ on_known (named_grid numbers) (λ g. parse (table_of widths.now) g table.now) unknown_parsed }
{
    match named_grid(numbers) {
        Some(grid) => Parsed::from(ImageDataMask::parse(table, grid, &Widths::new(widths))),
        None => Parsed::from(Err(Refusal::NoMode)),
    }
}

// Is a band of a block present?
#[unsafe(no_mangle)]
pub extern "C" fn gezdunar_has_block(
    table: &[u8],
    numbers: GridNumbers,
    widths: &[u8],
    block_row: u32,
    block_col: u32,
    band: u32,
) -> Present
    ensures { result ≡ on_known (named_grid numbers)
        (λ g. has_block (table_of widths.now) g table.now block_row block_col band) unknown_present }
{
    match named_grid(numbers) {
        Some(grid) => Present::from(ImageDataMask::has_block(
            table,
            grid,
            &Widths::new(widths),
            block_row,
            block_col,
            band,
        )),
        None => Present::from(Err(Refusal::NoMode)),
    }
}

// The offset of a band of a block.
#[unsafe(no_mangle)]
pub extern "C" fn gezdunar_get_block_offset(
    table: &[u8],
    numbers: GridNumbers,
    widths: &[u8],
    block_row: u32,
    block_col: u32,
    band: u32,
) -> BlockOffset
    ensures { result ≡ on_known (named_grid numbers)
        (λ g. get_block_offset (table_of widths.now) g table.now block_row block_col band) unknown_offset }
{
    match named_grid(numbers) {
        Some(grid) => BlockOffset::from(ImageDataMask::get_block_offset(
            table,
            grid,
            &Widths::new(widths),
            block_row,
            block_col,
            band,
        )),
        None => BlockOffset::from(Err(Refusal::NoMode)),
    }
}

// Writes a table.
#[unsafe(no_mangle)]
pub extern "C" fn gezdunar_mask_write(
    numbers: GridNumbers,
    widths: &[u8],
    block_record_length: u16,
    pad_record_length: u16,
    code_length: u16,
    code: u32,
    block_offsets: &[u32],
    pad_offsets: &[u32],
    out: &mut [u8],
) -> Written
    ensures { written_out result out.new ≡ on_known (named_grid numbers)
        (λ g. to_bytes (table_of widths.now) g (header_of block_record_length pad_record_length code_length code)
        block_offsets.now pad_offsets.now out.old)
        (written_out unknown_written out.old) }
{
    let mask = ImageDataMask {
        image_data_offset: 0,
        block_mask_record_length: block_record_length,
        pad_pixel_mask_record_length: pad_record_length,
        pad_pixel_code_length: code_length,
        pad_pixel_code: code,
    };
    match named_grid(numbers) {
        Some(grid) => Written::from(mask.to_bytes(
            block_offsets,
            pad_offsets,
            grid,
            &Widths::new(widths),
            out,
        )),
        None => Written::from(Err(Refusal::NoMode)),
    }
}

// The mask of a picture of which the marked blocks are provided.
#[unsafe(no_mangle)]
pub extern "C" fn gezdunar_mask_from_marks(
    marks: &[u64],
    numbers: GridNumbers,
    widths: &[u8],
    out: &mut [u32],
) -> Parsed
    ensures { marks_out result out.new ≡ on_known (named_grid numbers)
        (λ g. from_provided_blocks (table_of widths.now) g marks.now out.old)
        (marks_out unknown_parsed out.old) }
{
    match named_grid(numbers) {
        Some(grid) => Parsed::from(ImageDataMask::from_provided_blocks(
            marks,
            grid,
            &Widths::new(widths),
            out,
        )),
        None => Parsed::from(Err(Refusal::NoMode)),
    }
}
