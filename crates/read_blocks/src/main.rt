// Reads every block of a small picture in every mode at eleven widths by a reader, then asks what document 01 makes of
// listed bands, refusals and short files, and prints the answers: first under the edge rule tight, then under full.
// tools/expected_blocks.py works out what it must print.
#![tactic(auto)]

ghost use Rattle.std.specs.Prelude.{◌≤◌};

use grid::{EdgeRule, Grid};
use layout::InterleaveMode;
use printing::{Hex, ReadAnswer};
use refusals::answer_number;
use std::fmt::Display;
use std::io;
use widths::Widths;

const WIDTHS: [u32; 11] = [1, 4, 8, 11, 12, 16, 24, 31, 32, 40, 64];

// The table of widths that each call is handed.
static STANDARD: Widths = Widths::STANDARD;

// The image's bytes: any numbers will do, if no two places look alike.
fn image() -> [u8; 512] {
    let mut image = [0u8; 512];
    let mut x: u32 = 7;
    for byte in image.iter_mut() {
        x = (x % 65536 * 75 + 74) % 65537;
        *byte = (x % 256) as u8;
    }
    image
}

// A picture of 3 rows by 5 columns and 2 bands, in blocks of 2 rows by 4 columns.
#[derive(Clone, Copy)]
struct Picture<'a> {
    image: &'a [u8],
    edges: EdgeRule,
}

impl<'a> Picture<'a> {
    fn grid(self, mode: InterleaveMode, width: u32) -> Grid {
        Grid::new(3, 5, 2, width, mode, self.edges, 4, 2)
    }

    fn print_block(
        self,
        rt: &impl Print,
        mode: InterleaveMode,
        width: u32,
        row: u32,
        column: u32,
    ) -> io::Result<()> {
        let mut out = [0xAAu8; 130];
        let grid = self.grid(mode, width);
        let read = reader::read_block(self.image, grid, &STANDARD, row, column, 0, None, &mut out);
        let answer = ReadAnswer { read, out: &out };
        println!(rt; "{} {mode} {width} {row} {column} {answer}", self.edges)
    }

    fn print_blocks(self, rt: &impl Print) -> io::Result<()> {
        for width in WIDTHS {
            for mode in InterleaveMode::ALL {
                for (row, column) in [(0, 0), (0, 1), (1, 0), (1, 1)] {
                    self.print_block(rt, mode, width, row, column)?;
                }
            }
        }
        Ok(())
    }

    // Listed bands of a block of the right column in mode P, into an output of so many bytes.
    fn ask(
        self,
        rt: &impl Print,
        label: impl Display + Drop,
        width: u32,
        row: u32,
        level: u32,
        bands: &[u32],
        room: usize,
    ) -> io::Result<()>
        requires { room ≤ 9 }
    {
        let mut out = [0xAAu8; 9];
        let out = &mut out[..room];
        let grid = self.grid(InterleaveMode::P, width);
        let read = reading::decode_block(
            self.image,
            grid,
            &STANDARD,
            row,
            1,
            level,
            Some(bands),
            out,
        );
        println!(rt; "{} {label} {}", self.edges, ReadAnswer { read, out })
    }

    fn ask_bands(self, rt: &impl Print) -> io::Result<()> {
        let three = [1, 0, 1];
        self.ask(rt, "empty list", 12, 1, 0, &[], 9)?;
        self.ask(rt, "bands 1 0 1", 12, 1, 0, &three, 9)?;
        self.ask(rt, "one byte of output too few", 12, 1, 0, &three, 5)?;
        let high = [0, 2];
        self.ask(rt, "band 2", 12, 1, 0, &high, 5)?;
        self.ask(rt, "level 1", 12, 1, 1, &high, 5)?;
        self.ask(rt, "block row 2", 12, 2, 0, &high, 5)?;
        self.ask(rt, "width 17", 17, 1, 0, &high, 5)
    }

    // Only the first bytes of the image are there. At 8 bits the block's last sample is byte 49; at 12 bits its last
    // run ends with byte 95.
    fn ask_fronts(self, rt: &impl Print) -> io::Result<()> {
        for (bytes, width) in [(49, 8), (50, 8), (95, 12), (96, 12)] {
            if let Some(image) = self.image.get(..bytes) {
                let front = Picture { image, ..self };
                let label = format_args!("{bytes} bytes");
                front.ask(rt, label, width, 1, 0, &[0, 1], 5)?;
            }
        }
        Ok(())
    }

    fn print_whole(
        self,
        rt: &impl Print,
        mode: InterleaveMode,
        row: u32,
        column: u32,
    ) -> io::Result<()> {
        let grid = self.grid(mode, 12);
        let found = reading::whole::find_whole(self.image, grid, &STANDARD, row, column);
        let part = reading::whole::whole_block(self.image, grid, &STANDARD, row, column);
        println!(rt;
            "{} whole {mode} 12 {row} {column} {} {}",
            self.edges,
            answer_number(&found),
            Hex(part)
        )
    }

    fn print_wholes(self, rt: &impl Print) -> io::Result<()> {
        self.print_whole(rt, InterleaveMode::B, 0, 1)?;
        self.print_whole(rt, InterleaveMode::P, 1, 1)?;
        self.print_whole(rt, InterleaveMode::R, 1, 0)?;
        self.print_whole(rt, InterleaveMode::S, 1, 1)?;
        self.print_whole(rt, InterleaveMode::B, 0, 2)
    }
}

fn print_all(rt: &impl Print) -> io::Result<()> {
    let image = image();
    for edges in EdgeRule::ALL {
        let picture = Picture {
            image: &image,
            edges,
        };
        picture.print_blocks(rt)?;
        picture.ask_bands(rt)?;
        picture.ask_fronts(rt)?;
        picture.print_wholes(rt)?;
    }
    Ok(())
}

// A failed write is no error, and tells nobody: the output is compared.
fn main(rt: HostRuntime) {
    let _ = print_all(&rt);
}
