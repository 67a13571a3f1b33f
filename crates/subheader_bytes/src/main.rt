// Three parts of an image subheader, changed byte by byte: each byte takes all 256 values while the others stay. Prints
// the numbers that the reader answers. tools/expected_subheader.py made stdout.
#![tactic(auto)]

ghost use Rattle.std.specs.Prelude.{◌+◌, ◌<◌, ◌≤◌};

use grid::EdgeRule;
use refusals::answer_number;
use std::{fmt, io};
use subheader::ImageSubheader;
use widths::Widths;

// The three parts one after the other, the bands, and a byte more for a third part that is too long.
#[derive(Clone, Copy)]
struct Set {
    bytes: [u8; 60],
    bands: u32,
}

// Where the second and the third part start in a set.
const SECOND: usize = 38;

const THIRD: usize = 40;

// The table of widths that the reader is handed.
static STANDARD: Widths = Widths::STANDARD;

// Values that the reader answers with the same number, which is printed.
#[derive(Clone, Copy)]
struct Run {
    from: u8,
    to: u8,
    number: u32,
}

impl fmt::Display for Run {
    fn fmt<W: fmt::Write>(&self, f: &mut fmt::Formatter<W>) -> fmt::Result {
        write!(f, "{}", self.from)?;
        if self.from != self.to {
            write!(f, "-{}", self.to)?;
        }
        write!(f, " {}", self.number)
    }
}

impl Set {
    fn of(parts: &str, bands: u32) -> Set {
        let mut bytes = [b'0'; 60];
        for (byte, letter) in bytes.iter_mut().zip(parts.bytes()) {
            *byte = letter;
        }
        Set { bytes, bands }
    }

    // What the reader answers for parts of these lengths.
    fn answer_cut(self, first: usize, second: usize, third: usize) -> u32
        requires { (first ≤ 60) × (second ≤ 22) × (third ≤ 20) }
    {
        answer_number(&ImageSubheader::read(
            &self.bytes[..first],
            &self.bytes[SECOND..SECOND + second],
            &self.bytes[THIRD..THIRD + third],
            self.bands,
            EdgeRule::Tight,
            &STANDARD,
        ))
    }

    // The same for the parts as they are.
    fn answer(self) -> u32 {
        self.answer_cut(
            ImageSubheader::FIRST_BYTES,
            ImageSubheader::SECOND_BYTES,
            ImageSubheader::THIRD_BYTES,
        )
    }

    // The same with another byte at a place.
    fn answer_with(mut self, place: usize, value: u8) -> u32
        requires { place < 60 }
    {
        self.bytes[place] = value;
        self.answer()
    }

    // The answers of all values at a place, each run of equal ones once.
    fn print_place(self, rt: &impl Print, place: usize) -> io::Result<()>
        requires { place < 60 }
    {
        let mut run = Run {
            from: 0,
            to: 0,
            number: self.answer_with(place, 0),
        };
        for value in 1..=255 {
            let number = self.answer_with(place, value);
            if number != run.number {
                print!(rt; " {run},")?;
                run = Run {
                    from: value,
                    to: value,
                    number,
                };
            }
            run.to = value;
        }
        println!(rt; " {run}")
    }

    // A line for each byte of part k, which starts at `at`.
    fn print_part(self, rt: &impl Print, k: u32, at: usize, size: usize) -> io::Result<()>
        requires { at + size ≤ 60 }
    {
        for i in 0..size {
            print!(rt; "{k} {i}:")?;
            self.print_place(rt, at + i)?;
        }
        Ok(())
    }

    // Parts that are one byte too short or too long.
    fn print_lengths(self, rt: &impl Print) -> io::Result<()> {
        println!(rt; "1 of 37 bytes: {}", self.answer_cut(37, 2, 19))?;
        println!(rt; "1 of 39 bytes: {}", self.answer_cut(39, 2, 19))?;
        println!(rt; "2 of 1 bytes: {}", self.answer_cut(38, 1, 19))?;
        println!(rt; "2 of 3 bytes: {}", self.answer_cut(38, 3, 19))?;
        println!(rt; "3 of 18 bytes: {}", self.answer_cut(38, 2, 18))?;
        println!(rt; "3 of 20 bytes: {}", self.answer_cut(38, 2, 20))
    }
}

// The parts, the bands and the answer, then those of the changed parts.
fn print_set(rt: &impl Print, parts: &str, bands: u32) -> io::Result<()> {
    let set = Set::of(parts, bands);
    println!(rt; "{parts} {bands}: {}", set.answer())?;
    set.print_part(rt, 1, 0, ImageSubheader::FIRST_BYTES)?;
    set.print_part(rt, 2, SECOND, ImageSubheader::SECOND_BYTES)?;
    set.print_part(rt, 3, THIRD, ImageSubheader::THIRD_BYTES)?;
    set.print_lengths(rt)
}

// Blocks of 4 rows and 8 columns; one block with both sides zero; a zero with two blocks across; a side above 8,192 in
// digits; an image of 4,294,967,294 bytes; a PVTYPE that is none, and no rows.
fn print_sets(rt: &impl Print) -> io::Result<()> {
    let sets = [
        (
            "0000001300000019INTMONO    VIS     08RNCB000300040008000408",
            2,
        ),
        (
            "0000820000009000SI MONO    SAR     11LNMS000100010000000016",
            3,
        ),
        (
            "0000010000000200R  NODISPLYMS      32RNCP000200010000010032",
            1,
        ),
        (
            "0000000100009999B  MONO    VIS     01RNMR000100019999000101",
            99_999,
        ),
        (
            "0013107500262138C  MONO    IR      00LNCP000100010000000001",
            1,
        ),
        (
            "0000000000000007 R MONO    VIS     32RNCS000100010007000132",
            4,
        ),
    ];
    for (parts, bands) in sets {
        print_set(rt, parts, bands)?;
    }
    Ok(())
}

// A failed write is no error, and tells nobody: the output is compared.
fn main(rt: HostRuntime) {
    let _ = print_sets(&rt);
}
