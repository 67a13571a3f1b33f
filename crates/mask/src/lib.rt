// The image data mask table: which blocks of a picture are stored, and where.
#![tactic(auto)]

ghost use Rattle.std.specs.Prelude.{◌≡◌};
ghost use Rattle.mask.specs.Table.{records, code_bytes};
ghost use Rattle.mask.specs.Mask.{no_mask};

use common::pick;
use grid::AcceptedGrid;

mod answers;
mod fill;
mod lookup;
mod parse;
mod write;

// A table's header and pad code. The records stay in the table.
#[repr(C)]
#[derive(Clone, Copy)]
pub struct ImageDataMask {
    // IMDATOFF: where the image data starts, from the table's first byte on.
    pub image_data_offset: u32,
    // BMRLNTH: bytes of a block record.
    pub block_mask_record_length: u16,
    // TMRLNTH: bytes of a pad record.
    pub pad_pixel_mask_record_length: u16,
    // TPXCDLNTH: bits of the pad code; there is none where it is 0.
    pub pad_pixel_code_length: u16,
    // TPXCD: the pad code.
    pub pad_pixel_code: u32,
}

// What an accepted parse gives: the header, and the bytes that the table takes. The mask from marks gives the words
// that it filled.
#[derive(Clone, Copy)]
pub struct ParsedMask {
    pub mask: ImageDataMask,
    pub used: usize,
}

// What C is answered by parse and by the mask from marks: the number, and what an accepted call gives.
#[repr(C)]
#[derive(Clone, Copy)]
pub struct Parsed {
    pub number: u32,
    pub mask: ImageDataMask,
    pub used: usize,
}

// What C is answered by `has_block`.
#[repr(C)]
#[derive(Clone, Copy)]
pub struct Present {
    pub number: u32,
    pub present: bool,
}

// What C is answered by `get_block_offset`: `given` where the block is present and the table has block records.
#[repr(C)]
#[derive(Clone, Copy)]
pub struct BlockOffset {
    pub number: u32,
    pub given: bool,
    pub offset: u32,
}

// What C is answered by `to_bytes`: the number, and the bytes written.
#[repr(C)]
#[derive(Clone, Copy)]
pub struct Written {
    pub number: u32,
    pub bytes: usize,
}

impl ImageDataMask {
    // Marks an empty block.
    pub const EMPTY_BLOCK_OFFSET: u32 = 0xFFFF_FFFF;

    // The header's bytes before the pad code.
    pub const HEADER_BYTES: usize = 10;

    // The length of a record, where there are any.
    pub const RECORD_LENGTH: u16 = 4;

    // The most bits of a pad code.
    pub const MAX_CODE_BITS: u16 = 32;

    // The most bytes of a written table.
    pub const MAX_TABLE_BYTES: usize = 4_294_967_295;

    // No mask: what stands beside a refusal.
    pub fn none() -> Self
        ensures { result ≡ no_mask }
    {
        Self {
            image_data_offset: 0,
            block_mask_record_length: 0,
            pad_pixel_mask_record_length: 0,
            pad_pixel_code_length: 0,
            pad_pixel_code: 0,
        }
    }

    // The bytes of the pad code.
    fn code_bytes(self) -> usize
        ensures { result ≡ code_bytes self.pad_pixel_code_length }
    {
        (self.pad_pixel_code_length as usize).div_ceil(8)
    }
}

// The records of a table, of each kind that it has at all: one a block, in S one a block and band.
fn record_count(grid: AcceptedGrid) -> usize
    ensures { result ≡ records grid.grid }
{
    let blocks = grid.blocks();
    let apart = grid.grid.imode.bands_apart();
    pick(apart, blocks * grid.grid.bands as usize, blocks)
}
