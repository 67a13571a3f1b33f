// Records of the image data mask table. Each answers whether the call gave what is recorded.
use crate::answers::BEFORE;
use crate::grids::STANDARD;
use crate::records::{Fault, Record};
use crate::words::{padded, part};
use mask::{ImageDataMask, ParsedMask};

// The lengths of a block record and of a pad record in bytes, and of the pad code in bits.
fn lengths(m: ImageDataMask) -> [usize; 3] {
    [
        usize::from(m.block_mask_record_length),
        usize::from(m.pad_pixel_mask_record_length),
        usize::from(m.pad_pixel_code_length),
    ]
}

fn parsed_values(p: ParsedMask) -> [usize; 6] {
    let m = p.mask;
    let [block, pad, code] = lengths(m);
    [
        m.image_data_offset as usize,
        block,
        pad,
        code,
        m.pad_pixel_code as usize,
        p.used,
    ]
}

pub fn parse(r: &Record<'_>) -> bool {
    r.has(ImageDataMask::parse(r.input, r.grid, &STANDARD).map(|p| (parsed_values(p), 0)))
}

// An argument of two bytes.
fn short(n: u32) -> u16 {
    (n % 65536) as u16
}

// The block offsets may reach past the arguments; then there are no pad offsets.
pub fn write(r: &Record<'_>, out: &mut [u8]) -> Result<bool, Fault> {
    let [block_length, pad_length, code_length, code, count] = r.arguments::<5>()?;
    let words = r.words();
    let pads_at = 5 + count as usize;
    let (blocks, pads) = (part(&words, 5, pads_at), part(&words, pads_at, r.count));
    let m = ImageDataMask {
        image_data_offset: 0,
        block_mask_record_length: short(block_length),
        pad_pixel_mask_record_length: short(pad_length),
        pad_pixel_code_length: short(code_length),
        pad_pixel_code: code,
    };
    let written = m.to_bytes(blocks, pads, r.grid, &STANDARD, out);
    Ok(r.has(written.map(|bytes| ([], bytes))) && r.fills(out))
}

// Whether a block is present, whether its offset is known, and the offset.
fn lookup_values(present: bool, offset: Option<u32>) -> [usize; 3] {
    [
        usize::from(present),
        usize::from(offset.is_some()),
        offset.unwrap_or(0) as usize,
    ]
}

// A lookup is both of the library's calls, which have one refusal.
pub fn lookup(r: &Record<'_>) -> Result<bool, Fault> {
    let [row, column, band] = r.arguments::<3>()?;
    let block = ImageDataMask::has_block(r.input, r.grid, &STANDARD, row, column, band);
    let place = ImageDataMask::get_block_offset(r.input, r.grid, &STANDARD, row, column, band);
    Ok(match (block, place) {
        (Ok(present), Ok(offset)) => r.has(Ok((lookup_values(present, offset), 0))),
        (Err(one), Err(other)) => one == other && r.refuses(one),
        _ => false,
    })
}

pub fn from_marks(r: &Record<'_>) -> bool {
    let mut marks = [0u64; 2];
    for (mark, bytes) in marks.iter_mut().zip(r.input.chunks(8)) {
        *mark = u64::from_be_bytes(padded(bytes));
    }
    let mut offsets = [u32::from_be_bytes([BEFORE; 4]); 256];
    let made = ImageDataMask::from_provided_blocks(&marks, r.grid, &STANDARD, &mut offsets);
    let answer = made.map(|p| (lengths(p.mask), p.used.saturating_mul(4)));
    let mut out = [BEFORE; 1024];
    let (words, _) = out.as_chunks_mut::<4>();
    for (word, offset) in words.iter_mut().zip(offsets) {
        *word = offset.to_be_bytes();
    }
    r.has(answer) && r.fills(&out)
}
