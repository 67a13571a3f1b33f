// The version, a grid's numbers, and what bytes and numbers name.
ghost use Rattle.std.specs.Prelude.{◌≡◌, []};
ghost use Rattle.common.specs.Tests.{pick};
ghost use Rattle.layout.specs.Bands.{bands_in, bands_of};
ghost use Rattle.gezdunar.specs.Boundary.{version, numbers_of, mode_of, rule_of, grid_in, named_grid};

use crate::GridNumbers;
use grid::{EdgeRule, Grid};
use layout::InterleaveMode;

// The boundary's version: major * 1,000,000 + minor * 1,000 + patch.
#[unsafe(no_mangle)]
pub extern "C" fn gezdunar_version() -> u32
    ensures { result ≡ version }
{
    7_000
}

// The numbers of a picture in blocks; NBPR and NBPC follow from the sides.
#[unsafe(no_mangle)]
pub extern "C" fn gezdunar_grid(
    nrows: u32,
    ncols: u32,
    bands: u32,
    nbpp: u32,
    imode: u8,
    edges: u8,
    nppbv: u32,
    nppbh: u32,
) -> GridNumbers
    ensures { result ≡ numbers_of nrows ncols bands nbpp imode edges nppbv nppbh }
{
    // The block counts are the same in every mode and under both rules.
    let grid = Grid::new(
        nrows,
        ncols,
        bands,
        nbpp,
        InterleaveMode::B,
        EdgeRule::Tight,
        nppbh,
        nppbv,
    );
    GridNumbers {
        nrows,
        ncols,
        bands,
        nbpp,
        imode,
        edges,
        nppbh,
        nppbv,
        nbpr: grid.nbpr,
        nbpc: grid.nbpc,
    }
}

// IMODE's letter.
#[tactic(auto, unfolding(crate::specs::Boundary::mode_of, common::specs::Tests::pick))]
pub fn named_mode(byte: u8) -> Option<InterleaveMode>
    ensures { result ≡ mode_of byte }
{
    match byte {
        b'B' => Some(InterleaveMode::B),
        b'P' => Some(InterleaveMode::P),
        b'R' => Some(InterleaveMode::R),
        b'S' => Some(InterleaveMode::S),
        _ => None,
    }
}

// The edge rule's letter.
#[tactic(auto, unfolding(crate::specs::Boundary::rule_of, common::specs::Tests::pick))]
pub fn named_rule(byte: u8) -> Option<EdgeRule>
    ensures { result ≡ rule_of byte }
{
    match byte {
        b'T' => Some(EdgeRule::Tight),
        b'F' => Some(EdgeRule::Full),
        _ => None,
    }
}

// The grid of the numbers in a mode, under a rule.
pub fn grid_in(numbers: GridNumbers, imode: InterleaveMode, edges: EdgeRule) -> Grid
    ensures { result ≡ grid_in numbers imode edges }
{
    Grid {
        nrows: numbers.nrows,
        ncols: numbers.ncols,
        bands: numbers.bands,
        nbpp: numbers.nbpp,
        imode,
        edges,
        nppbh: numbers.nppbh,
        nppbv: numbers.nppbv,
        nbpr: numbers.nbpr,
        nbpc: numbers.nbpc,
    }
}

// The grid that numbers name, unless IMODE's byte is no mode or the rule's byte is no rule. Each export matches it:
// None is answered by a struct of its own, and the rest of the call stands in the other arm.
#[tactic(auto, unfolding(crate::specs::Boundary::named_grid))]
pub fn named_grid(numbers: GridNumbers) -> Option<Grid>
    ensures { result ≡ named_grid numbers }
{
    Some(grid_in(
        numbers,
        named_mode(numbers.imode)?,
        named_rule(numbers.edges)?,
    ))
}

// The bands that C asks for: all, where it looks at no list, or those of the list.
#[tactic(auto, unfolding(common::specs::Tests::pick))]
pub fn asked_bands(all: bool, list: &[u32]) -> Option<&[u32]>
    ensures { bands_in result ≡ bands_of all (pick all [] list.now) }
{
    if all { None } else { Some(list) }
}
