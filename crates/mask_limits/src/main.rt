// Mask tables at their limits: sizes that would wrap in 32 bits, the largest table that question 21 accepts, the
// smallest that it refuses.
#![tactic(auto)]

use grid::{EdgeRule, Grid};
use layout::InterleaveMode;
use mask::ImageDataMask;
use refusals::answer_number;
use std::io;
use widths::Widths;

// Mode S, blocks of one byte: one record a block and band.
fn sequential(nbpr: u32, nbpc: u32, bands: u32) -> Grid {
    let mode = InterleaveMode::S;
    Grid::new(nbpc, nbpr, bands, 8, mode, EdgeRule::Tight, 1, 1)
}

fn header(block: u16, pad: u16, bits: u16, code: u32) -> ImageDataMask {
    ImageDataMask {
        image_data_offset: 0,
        block_mask_record_length: block,
        pad_pixel_mask_record_length: pad,
        pad_pixel_code_length: bits,
        pad_pixel_code: code,
    }
}

// What a write with no offsets and no room answers: 22 where the table may be written, 21 where it is too large.
fn print_write(rt: &impl Print, label: &str, grid: Grid, mask: ImageDataMask) -> io::Result<()> {
    let written = mask.to_bytes(&[], &[], grid, &Widths::STANDARD, &mut []);
    println!(rt; "{label}: {}", answer_number(&written))
}

// 1,321 x 793 blocks of 1,025 bands are 1,073,741,825 records, of which four bytes each come to 4 in 32 bits.
fn wrapped(rt: &impl Print) -> io::Result<()> {
    let grid = sequential(1_321, 793, 1_025);
    let widths = Widths::STANDARD;
    let table = [0, 0, 0, 14, 0, 4, 0, 0, 0, 0, 0, 0, 0, 0];
    let parsed = ImageDataMask::parse(&table, grid, &widths);
    let present = ImageDataMask::has_block(&table, grid, &widths, 0, 0, 0);
    let offset = ImageDataMask::get_block_offset(&table, grid, &widths, 0, 0, 0);
    println!(rt; "grid: {}", answer_number(&grid.check(&widths)))?;
    println!(rt; "parse: {}", answer_number(&parsed))?;
    println!(rt; "has_block: {}", answer_number(&present))?;
    println!(rt; "get_block_offset: {}", answer_number(&offset))?;
    print_write(rt, "to_bytes", grid, header(4, 0, 0, 0))
}

fn print_all(rt: &impl Print) -> io::Result<()> {
    wrapped(rt)?;
    // 1,073,741,820 records and a code of 4 bytes: 4,294,967,294 bytes.
    let largest = sequential(7_366, 9_718, 15);
    print_write(rt, "largest table", largest, header(4, 0, 32, 7))?;
    // 1,073,741,822 records and no code: 4,294,967,298 bytes.
    let refused = sequential(1_103, 4_178, 233);
    print_write(rt, "smallest refused", refused, header(4, 0, 0, 0))?;
    print_write(rt, "no records", refused, header(0, 0, 0, 0))?;
    let two = sequential(2, 1, 1);
    print_write(rt, "record length 3", two, header(3, 0, 0, 0))?;
    print_write(rt, "code of 33 bits", two, header(4, 0, 33, 0))?;
    print_write(rt, "code 256 in 8 bits", two, header(4, 0, 8, 256))?;
    print_write(rt, "code 1 in no bits", two, header(4, 0, 0, 1))
}

// A failed write is no error, and tells nobody: the output is compared.
fn main(rt: HostRuntime) {
    let _ = print_all(&rt);
}
