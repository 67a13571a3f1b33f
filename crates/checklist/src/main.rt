// The field engineers' checklist, on a cube of 5 rows, 7 columns and 3 bands of 12 bits in blocks of 3 rows and 4
// columns, in each mode. Each line says what was expected and what came.
#![tactic(auto)]

mod cube;
mod say;

use crate::cube::Cube;
use crate::say::{Numbers, Samples, say};
use calls::Answer;
use layout::InterleaveMode;
use refusals::Refusal;
use std::io;

// Bands 2 and 0 of the lower right block: rows 3 and 4, columns 4 to 6.
const LOWER_RIGHT: Samples = Samples {
    rows: 2,
    columns: 3,
    bytes: [
        0x02, 0x34, 0x02, 0x35, 0x02, 0x36, 0x02, 0x44, 0x02, 0x45, 0x02, 0x46, 0x00, 0x34, 0x00,
        0x35, 0x00, 0x36, 0x00, 0x44, 0x00, 0x45, 0x00, 0x46,
    ],
};

// How many bands and bytes a read of the first block gives. A band has 3 rows of 4 samples of 2 bytes; none of them is
// 0xFF.
fn counts(cube: &Cube, list: &[u32]) -> Result<(usize, usize), Refusal> {
    let mut out = [0xFFu8; 72];
    let extent = cube.read(0, 0, list, &mut out)?;
    let written = out.iter().filter(|byte| **byte != 0xFF).count();
    Ok((extent.bands, written))
}

// An empty list asks for no bands.
fn empty_list(mode: InterleaveMode) -> Result<Numbers<2>, Refusal> {
    let cube = Cube::whole(mode)?;
    let (bands, bytes) = counts(&cube, &[])?;
    Ok(Numbers([bands, bytes]))
}

fn band_count(mode: InterleaveMode) -> Result<Numbers<6>, Refusal> {
    let cube = Cube::whole(mode)?;
    let one = counts(&cube, &[2])?;
    let two = counts(&cube, &[1, 1])?;
    let three = counts(&cube, &[2, 0, 1])?;
    Ok(Numbers([one.0, one.1, two.0, two.1, three.0, three.1]))
}

// The last block, whose rows are shorter than a full block's.
fn lower_right(mode: InterleaveMode) -> Result<Samples, Refusal> {
    let cube = Cube::whole(mode)?;
    let mut bytes = [0xFFu8; 24];
    let extent = cube.read(1, 1, &[2, 0], &mut bytes)?;
    Ok(Samples {
        rows: extent.rows,
        columns: extent.columns,
        bytes,
    })
}

// Block row 1, block column 0 was not written.
fn one_unwritten(mode: InterleaveMode) -> Result<Numbers<3>, Refusal> {
    let answer = Answer::from(Cube::all_but_one(mode)?.finalize());
    Ok(Numbers([answer.number as usize, answer.first, answer.second]))
}

fn say_all(rt: &impl Print) -> io::Result<()> {
    let label = "empty band list: expected 0 bands, 0 bytes";
    say(rt, label, &Numbers([0, 0]), empty_list)?;
    let label = "band count against byte count: expected 1 24 2 48 3 72";
    say(rt, label, &Numbers([1, 24, 2, 48, 3, 72]), band_count)?;
    let label =
        "lower right block at 12 bits: expected 234 235 236 244 245 246 034 035 036 044 045 046";
    say(rt, label, &LOWER_RIGHT, lower_right)?;
    let label = "finish with one block unwritten: expected 15, block row 1, block column 0";
    say(rt, label, &Numbers([15, 1, 0]), one_unwritten)
}

// A failed write is no error, and tells nobody: the output is compared.
fn main(rt: HostRuntime) {
    let _ = say_all(&rt);
}
