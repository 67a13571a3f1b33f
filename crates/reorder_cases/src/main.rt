// Reorders a picture of 2 rows, 2 columns and three bands in every mode, at samples of 1 to 8 bytes.
// The orders are those of the module comment of the original's interleave.rs; tools/expected_reorderings.py has them
// too.
#![tactic(auto)]

ghost use Rattle.std.specs.Prelude.{◌<◌, ◌≤◌};

use interleave::{Output, Reordered};
use layout::InterleaveMode;
use printing::Hex;
use refusals::Refusal;
use std::io;

// The sample that stands at each place: R00, R01, R10, R11 are 0 to 3, G00 to G11 are 4 to 7, B00 to B11 are 8 to 11.
const BY_BAND: [u8; 12] = [0, 1, 2, 3, 4, 5, 6, 7, 8, 9, 10, 11];

const BY_PIXEL: [u8; 12] = [0, 4, 8, 1, 5, 9, 2, 6, 10, 3, 7, 11];

const BY_ROW: [u8; 12] = [0, 1, 4, 5, 8, 9, 2, 3, 6, 7, 10, 11];

fn order(mode: InterleaveMode) -> [u8; 12] {
    match mode {
        InterleaveMode::P => BY_PIXEL,
        InterleaveMode::R => BY_ROW,
        InterleaveMode::B | InterleaveMode::S => BY_BAND,
    }
}

// Room for the twelve samples, at most 8 bytes each.
type Samples = [u8; 96];

// The samples in the order of a mode: byte j of sample n is 16 n + j. `size` is a plain number, as the calls take it.
fn arranged(mode: InterleaveMode, size: usize) -> Samples
    requires { (0 < size) × (size ≤ 8) }
{
    let mut data = [0u8; 96];
    for (bytes, sample) in data.chunks_exact_mut(size).zip(order(mode)) {
        for (byte, j) in bytes.iter_mut().zip(0..8) {
            *byte = sample << 4 | j;
        }
    }
    data
}

// The counts of a picture, and the bytes of a sample.
#[derive(Clone, Copy)]
struct Counts {
    rows: u32,
    columns: u32,
    bands: u32,
    size: usize,
}

// Those of the twelve samples, of so many bytes each.
fn twelve_of(size: usize) -> Counts {
    Counts {
        rows: 2,
        columns: 2,
        bands: 3,
        size,
    }
}

fn print_answer(
    rt: &impl Print,
    label: &str,
    mode: InterleaveMode,
    size: usize,
    answer: Result<Output, Refusal>,
    out: &[u8],
) -> io::Result<()> {
    let answer = Reordered::from(answer);
    print!(rt; "{label} {mode} {size} {} ", answer.number)?;
    println!(rt; "{} {} {}", answer.bands, answer.bytes, Hex(out))
}

// This and the next differ in the call alone; a parameter for the call would have to name its seven types.
fn to_bands(
    rt: &impl Print,
    label: &str,
    data: &[u8],
    mode: InterleaveMode,
    counts: Counts,
    out: &mut [u8],
) -> io::Result<()> {
    let answer = interleave::to_band_sequential(
        data,
        mode,
        counts.rows,
        counts.columns,
        counts.bands,
        counts.size,
        out,
    );
    print_answer(rt, label, mode, counts.size, answer, out)
}

fn from_bands(
    rt: &impl Print,
    label: &str,
    data: &[u8],
    mode: InterleaveMode,
    counts: Counts,
    out: &mut [u8],
) -> io::Result<()> {
    let answer = interleave::from_band_sequential(
        data,
        mode,
        counts.rows,
        counts.columns,
        counts.bands,
        counts.size,
        out,
    );
    print_answer(rt, label, mode, counts.size, answer, out)
}

fn reorder(rt: &impl Print, mode: InterleaveMode, size: usize) -> io::Result<()>
    requires { (0 < size) × (size ≤ 8) }
{
    let bytes = size * 12;
    let by_mode = arranged(mode, size);
    let mut to = [0xAAu8; 98];
    to_bands(rt, "to", &by_mode[..bytes], mode, twelve_of(size), &mut to)?;
    let by_band = arranged(InterleaveMode::B, size);
    let mut from = [0xAAu8; 98];
    from_bands(
        rt,
        "from",
        &by_band[..bytes],
        mode,
        twelve_of(size),
        &mut from,
    )
}

// Bands out of P, those of a list or all, into an output of so many bytes.
fn select(rt: &impl Print, bands: Option<&[u32]>, size: usize, room: usize) -> io::Result<()>
    requires { (0 < size) × (size ≤ 8) × (room ≤ 130) }
{
    let by_pixel = arranged(InterleaveMode::P, size);
    let data = &by_pixel[..size * 12];
    let mut out = [0xAAu8; 130];
    let out = &mut out[..room];
    let answer = interleave::fused_bip_to_bsq(data, 2, 2, 3, size, bands, out);
    print_answer(rt, "listed", InterleaveMode::P, size, answer, out)
}

fn selections(rt: &impl Print) -> io::Result<()> {
    select(rt, Some(&[]), 2, 130)?;
    select(rt, None, 2, 130)?;
    select(rt, Some(&[2, 0]), 2, 130)?;
    select(rt, Some(&[1, 1, 1, 1]), 3, 130)?;
    select(rt, Some(&[0, 3]), 2, 130)?;
    // An output of one byte too few.
    select(rt, Some(&[2, 0]), 2, 15)
}

// Counts of nothing beside the largest counts, and a product that would wrap.
fn extremes(rt: &impl Print) -> io::Result<()> {
    let mut out = [0xAAu8; 2];
    let no_bands = Counts {
        rows: u32::MAX,
        columns: u32::MAX,
        bands: 0,
        size: 8,
    };
    to_bands(rt, "no bands", &[], InterleaveMode::P, no_bands, &mut out)?;
    let no_columns = Counts {
        rows: u32::MAX,
        columns: 0,
        bands: u32::MAX,
        size: 1,
    };
    from_bands(
        rt,
        "no columns",
        &[],
        InterleaveMode::R,
        no_columns,
        &mut out,
    )?;
    let wraps = Counts {
        rows: 1 << 31,
        columns: 1 << 31,
        bands: 4,
        size: 1,
    };
    to_bands(rt, "wraps", &[], InterleaveMode::R, wraps, &mut out)?;
    let nine_bytes = Counts {
        rows: 1,
        columns: 1,
        bands: 1,
        size: 9,
    };
    to_bands(
        rt,
        "nine bytes",
        &[],
        InterleaveMode::B,
        nine_bytes,
        &mut out,
    )
}

fn print_all(rt: &impl Print) -> io::Result<()> {
    for size in 1..9 {
        for mode in InterleaveMode::ALL {
            reorder(rt, mode, size)?;
        }
    }
    selections(rt)?;
    extremes(rt)
}

// A failed write is no error, and tells nobody: the output is compared.
fn main(rt: HostRuntime) {
    let _ = print_all(&rt);
}
