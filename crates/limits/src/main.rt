// Grids at every limit of questions 1 to 4, the figures without a letter, and tables of widths: prints what the check
// and the loading of a table answer.
#![tactic(auto)]

mod tables;

use grid::{EdgeRule, Grid};
use layout::InterleaveMode;
use refusals::answer_number;
use std::fmt::Display;
use std::io;
use widths::Widths;

// The limits are the same under both edge rules.
fn grid_of(
    nrows: u32,
    ncols: u32,
    bands: u32,
    nbpp: u32,
    imode: InterleaveMode,
    nppbh: u32,
    nppbv: u32,
) -> Grid {
    Grid::new(
        nrows,
        ncols,
        bands,
        nbpp,
        imode,
        EdgeRule::Tight,
        nppbh,
        nppbv,
    )
}

// The grid of the figures, at another width.
fn figure(nbpp: u32) -> Grid {
    grid_of(3, 5, 2, nbpp, InterleaveMode::B, 4, 2)
}

// One row of blocks of one pixel, with its count of blocks given.
fn across(nbpr: u32, ncols: u32) -> Grid {
    let row = grid_of(1, ncols, 1, 8, InterleaveMode::P, 1, 1);
    Grid {
        nbpr,
        nbpc: 1,
        ..row
    }
}

// One column of blocks of one pixel, with its count of blocks given.
fn down(nbpc: u32, nrows: u32) -> Grid {
    let column = grid_of(nrows, 1, 1, 8, InterleaveMode::R, 1, 1);
    Grid {
        nbpr: 1,
        nbpc,
        ..column
    }
}

fn answer(rt: &impl Print, label: impl Display + Drop, grid: Grid) -> io::Result<()> {
    println!(rt;
        "{label}: {}",
        answer_number(&grid.check(&Widths::STANDARD))
    )
}

fn answer_widths(rt: &impl Print, widths: &[u32]) -> io::Result<()> {
    for nbpp in widths {
        answer(rt, format_args!("NBPP {nbpp}"), figure(*nbpp))?;
    }
    Ok(())
}

fn figures(rt: &impl Print) -> io::Result<()> {
    let Ok(g) = figure(8).check(&Widths::STANDARD) else {
        return println!(rt; "the figures' grid is refused");
    };
    println!(rt; "NBPR {}", g.grid.nbpr)?;
    println!(rt; "NBPC {}", g.grid.nbpc)?;
    println!(rt; "t {}", g.band_bytes())?;
    println!(rt; "image {}", g.image_bytes())?;
    answer_widths(rt, &[16, 24, 64, 17, 23, 33, 65])
}

fn sides(rt: &impl Print) -> io::Result<()> {
    let b = InterleaveMode::B;
    answer(rt, "NROWS 0", grid_of(0, 5, 1, 8, b, 4, 2))?;
    answer(
        rt,
        "NROWS 99999999",
        grid_of(99_999_999, 1, 1, 1, b, 1, 8_192),
    )?;
    answer(
        rt,
        "NROWS 100000000",
        grid_of(100_000_000, 1, 1, 1, b, 1, 8_192),
    )?;
    answer(
        rt,
        "NCOLS 4294967295",
        grid_of(1, 4_294_967_295, 1, 1, b, 8_192, 1),
    )?;
    answer(rt, "NPPBH 0", grid_of(3, 5, 1, 8, b, 0, 2))?;
    answer(rt, "NPPBH 8192", grid_of(3, 5, 1, 8, b, 8_192, 2))?;
    answer(rt, "NPPBH 8193", grid_of(3, 5, 1, 8, b, 8_193, 2))?;
    answer(rt, "NPPBV 8193", grid_of(3, 5, 1, 8, b, 4, 8_193))?;
    answer(rt, "bands 0", grid_of(3, 5, 0, 8, b, 4, 2))?;
    answer(rt, "bands 99999", grid_of(3, 5, 99_999, 8, b, 4, 2))?;
    answer(rt, "bands 100000", grid_of(3, 5, 100_000, 8, b, 4, 2))
}

// A block may be above 8,192 columns where it is as wide as the picture.
fn wide_blocks(rt: &impl Print) -> io::Result<()> {
    let b = InterleaveMode::B;
    answer(
        rt,
        "NCOLS 8193, NPPBH 8193",
        grid_of(3, 8_193, 1, 8, b, 8_193, 2),
    )?;
    answer(
        rt,
        "NCOLS 8194, NPPBH 8193",
        grid_of(3, 8_194, 1, 8, b, 8_193, 2),
    )?;
    answer(
        rt,
        "NROWS 8193, NPPBH 8193",
        grid_of(8_193, 5, 1, 8, b, 8_193, 2),
    )?;
    let wide = grid_of(3, 9_000, 1, 8, b, 9_000, 2);
    let two_across = Grid {
        nbpr: 2,
        nbpc: 2,
        ..wide
    };
    answer(rt, "NCOLS 9000, NPPBH 9000, NBPR 2", two_across)?;
    answer(rt, "NCOLS 0, NPPBH 0", grid_of(3, 0, 1, 8, b, 0, 2))?;
    for ncols in [99_999_999, 100_000_000] {
        let label = format_args!("NCOLS {ncols}, NPPBH {ncols}");
        answer(rt, label, Grid::one_block(1, ncols, 1, 8, b))?;
    }
    Ok(())
}

// The same for rows.
fn high_blocks(rt: &impl Print) -> io::Result<()> {
    let b = InterleaveMode::B;
    answer(
        rt,
        "NROWS 8193, NPPBV 8193",
        grid_of(8_193, 5, 1, 8, b, 4, 8_193),
    )?;
    answer(
        rt,
        "NROWS 8194, NPPBV 8193",
        grid_of(8_194, 5, 1, 8, b, 4, 8_193),
    )?;
    answer(
        rt,
        "NCOLS 8193, NPPBV 8193",
        grid_of(3, 8_193, 1, 8, b, 4, 8_193),
    )?;
    let high = grid_of(9_000, 5, 1, 8, b, 4, 9_000);
    let two_down = Grid {
        nbpr: 2,
        nbpc: 2,
        ..high
    };
    answer(rt, "NROWS 9000, NPPBV 9000, NBPC 2", two_down)?;
    answer(rt, "NROWS 0, NPPBV 0", grid_of(0, 5, 1, 8, b, 4, 0))?;
    for nrows in [99_999_999, 100_000_000] {
        let label = format_args!("NROWS {nrows}, NPPBV {nrows}");
        answer(rt, label, Grid::one_block(nrows, 1, 1, 8, b))?;
    }
    Ok(())
}

fn counts(rt: &impl Print) -> io::Result<()> {
    answer(rt, "NBPR 0", across(0, 1))?;
    answer(rt, "NBPR 9999", across(9_999, 9_999))?;
    answer(rt, "NBPR 10000", across(10_000, 10_000))?;
    answer(rt, "NBPR 9999 of 10000", across(9_999, 10_000))?;
    answer(rt, "NBPC 0", down(0, 1))?;
    answer(rt, "NBPC 9999", down(9_999, 9_999))?;
    answer(rt, "NBPC 10000", down(10_000, 10_000))?;
    answer(rt, "NBPC 10000 of 9999", down(10_000, 9_999))
}

fn images(rt: &impl Print) -> io::Result<()> {
    let s = InterleaveMode::S;
    answer(
        rt,
        "image of 4294967293 bytes",
        grid_of(1_143, 30_060_973, 1, 1, s, 3_253, 1_143),
    )?;
    answer(
        rt,
        "image of 4294967295 bytes",
        grid_of(255, 257, 65_537, 8, s, 1, 1),
    )?;
    answer(
        rt,
        "image of 4294967296 bytes",
        grid_of(256, 256, 65_536, 8, s, 1, 1),
    )?;
    answer(
        rt,
        "image of 2 to the 64 bytes",
        grid_of(16_777_216, 16_777_216, 65_536, 8, s, 2_048, 2_048),
    )?;
    answer(
        rt,
        "largest product",
        grid_of(81_911_808, 81_911_808, 99_999, 64, s, 8_192, 8_192),
    )
}

// The answer, and the image's bytes where it is 0.
fn answer_with_bytes(rt: &impl Print, label: &str, grid: Grid) -> io::Result<()> {
    answer(rt, label, grid)?;
    match grid.check(&Widths::STANDARD) {
        Ok(accepted) => println!(rt; "its bytes: {}", accepted.image_bytes()),
        Err(_) => Ok(()),
    }
}

// Pictures in one block.
fn one_blocks(rt: &impl Print) -> io::Result<()> {
    let p = InterleaveMode::P;
    answer_with_bytes(
        rt,
        "65536 by 65536 at 1 bit in one block",
        Grid::one_block(65_536, 65_536, 1, 1, p),
    )?;
    answer_with_bytes(
        rt,
        "131075 by 262138 at 1 bit in one block",
        Grid::one_block(131_075, 262_138, 1, 1, p),
    )?;
    answer_with_bytes(
        rt,
        "67108864 by 67108864 with 512 bands of 64 bits in one block",
        Grid::one_block(67_108_864, 67_108_864, 512, 64, p),
    )?;
    answer_with_bytes(
        rt,
        "largest block",
        Grid::one_block(99_999_999, 99_999_999, 99_999, 64, p),
    )
}

fn print_all(rt: &impl Print) -> io::Result<()> {
    figures(rt)?;
    answer_widths(rt, &[0, 1, 39, 40, 63, 4_294_967_295])?;
    sides(rt)?;
    wide_blocks(rt)?;
    high_blocks(rt)?;
    counts(rt)?;
    images(rt)?;
    one_blocks(rt)?;
    tables::print_tables(rt)
}

// A failed write is no error, and tells nobody: the output is compared.
fn main(rt: HostRuntime) {
    let _ = print_all(&rt);
}
