// Reads NITF images that GDAL wrote, block by block and row by row, and prints their samples. Of one more image, in one
// block of 9,000 columns, it prints some columns. Two more have packed edge blocks, at 12 and at 4 bits.
// tools/gdal_images.py made GDAL's images in data/, and their lines of stdout from what GDAL reads out of them.
// tools/wide_image.py made the image with the wide block, and its lines.
// tools/packed_images.py made the packed images, and their lines from what GDAL reads out of them.
#![tactic(auto)]

ghost use Rattle.std.specs.Prelude.{◌≤◌, length, IfOk};

mod header;

use crate::header::{image_of, subheader_of};
use grid::Grid;
use printing::ReadAnswer;
use std::io::Read;
use std::rt::Files;
use std::{fs, io};
use widths::Widths;
use windows::Rectangle;

// The most columns of an image that is printed as a whole.
const MAX_COLUMNS: u32 = 19;

// The most bytes of a file that are read.
const MAX_BYTES: usize = 40_000;

// The table of widths that each call is handed.
static STANDARD: Widths = Widths::STANDARD;

#[derive(Clone, Copy)]
struct Picture<'a> {
    image: &'a [u8],
    grid: Grid,
}

impl<'a> Picture<'a> {
    // A block of at most 8 columns, 4 rows and 2 bands, with its shape.
    fn print_block(self, rt: &impl Print, row: u32, column: u32) -> io::Result<()> {
        let mut out = [0u8; 512];
        let read = reading::decode_block(
            self.image, self.grid, &STANDARD, row, column, 0, None, &mut out,
        );
        println!(rt; "block {row} {column} {}", ReadAnswer { read, out: &out })
    }

    fn print_blocks(self, rt: &impl Print) -> io::Result<()> {
        for row in 0..self.grid.nbpc {
            for column in 0..self.grid.nbpr {
                self.print_block(rt, row, column)?;
            }
        }
        Ok(())
    }

    // Columns of a row of the picture, both bands.
    fn print_columns(
        self,
        rt: &impl Print,
        row: u32,
        column: u32,
        columns: u32,
        out: &mut [u8],
    ) -> io::Result<()> {
        let part = Rectangle {
            row,
            column,
            rows: 1,
            columns,
        };
        let read = windows::read_window(self.image, self.grid, &STANDARD, part, None, out);
        println!(rt; "{}", ReadAnswer { read, out })
    }

    // The rows of at most 19 columns.
    fn print_rows(self, rt: &impl Print) -> io::Result<()> {
        for row in 0..self.grid.nrows {
            let mut out = [0u8; 304];
            print!(rt; "row {row} ")?;
            self.print_columns(rt, row, 0, self.grid.ncols, &mut out)?;
        }
        Ok(())
    }

    // The columns of a block, then eight columns of both rows: the first and the last of 9,000, and those on both sides
    // of column 8,192.
    fn print_wide(self, rt: &impl Print) -> io::Result<()> {
        println!(rt; "NPPBH {} ", self.grid.nppbh)?;
        for row in [0, 1] {
            for column in [0, 8_188, 8_992] {
                let mut out = [0u8; 16];
                print!(rt; "row {row} column {column} ")?;
                self.print_columns(rt, row, column, 8, &mut out)?;
            }
        }
        Ok(())
    }

    // The length of the image, then samples.
    fn print(self, rt: &impl Print) -> io::Result<()> {
        println!(rt; "{} ", self.image.len())?;
        if MAX_COLUMNS < self.grid.ncols {
            return self.print_wide(rt);
        }
        self.print_blocks(rt)?;
        self.print_rows(rt)
    }
}

// The number of the subheader, then the image where it is 0.
fn print_file(rt: &impl Print, file: &[u8]) -> io::Result<()> {
    let Some(image) = image_of(file) else {
        return Ok(());
    };
    match subheader_of(file) {
        Ok(subheader) => {
            print!(rt; "0 ")?;
            let grid = subheader.grid;
            Picture { image, grid }.print(rt)
        }
        Err(refusal) => println!(rt; "{} ", refusal.number()),
    }
}

// The first bytes of a file, as many as `buf` holds, and their count.
fn read_full(file: &mut impl Read, buf: &mut [u8]) -> io::Result<usize>
    ensures { IfOk result (λ n. n ≤ length buf.new) }
{
    let mut done = 0;
    for _ in 0..u64::MAX {
        let n = file.read(&mut buf[done..])?;
        if n == 0 {
            break;
        }
        done += n;
    }
    Ok(done)
}

// A file that can't be read is an error. A failed write is none, and tells nobody: the output is compared.
fn print_named(rt: &(impl Files + Print), name: &str) -> io::Result<()> {
    let _ = print!(rt; "{name} ");
    let mut file = fs::open(rt, name)?;
    let mut bytes = [0u8; MAX_BYTES];
    let n = read_full(&mut file, &mut bytes)?;
    let _ = print_file(rt, &bytes[..n]);
    Ok(())
}

fn main(rt: HostRuntime) -> io::Result<()> {
    for name in [
        "8.ntf", "16.ntf", "32.ntf", "64.ntf", "wide.ntf", "12.ntf", "4.ntf",
    ] {
        print_named(&rt, name)?;
    }
    Ok(())
}
