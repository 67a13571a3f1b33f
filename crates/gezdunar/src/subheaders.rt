// The subheader's fields across the boundary.
ghost use Rattle.std.specs.Prelude.{◌≡◌, IfOk};
ghost use Rattle.common.specs.Questions.{ask};
ghost use Rattle.refusals.specs.Refusals.{answer_number};
ghost use Rattle.widths.specs.Widths.{table_of};
ghost use Rattle.subheader.specs.Subheader.{parts_out, read_as_of, read_subheader};
ghost use Rattle.gezdunar.specs.Boundary.{edges_letter, on_known, rule_of};
ghost use Rattle.gezdunar.specs.Subheaders.{numbers_in, bytes_of, no_bytes, answer_of};
ghost use Rattle.gezdunar.specs.Subheaders.{are_named, fields_of, write_under, write_bytes};

use crate::names::{grid_in, named_rule};
use crate::{GridNumbers, SubheaderAnswer, SubheaderBytes};
use fields::named::Named;
use grid::{EdgeRule, Grid};
use refusals::{Refusal, answer_number};
use subheader::{ImageSubheader, named_value};
use widths::Widths;

// The letter of an edge rule, which C gives and gets: a byte of the C interface, not its name.
fn edges_letter(edges: EdgeRule) -> u8
    ensures { result ≡ edges_letter edges }
{
    match edges {
        EdgeRule::Tight => b'T',
        EdgeRule::Full => b'F',
    }
}

// A grid's numbers, IMODE and the edge rule as letters.
impl From<Grid> for GridNumbers {
    ghost from_gives = { λ grid numbers. numbers ≡ numbers_in grid };

    fn from(grid: Grid) -> Self {
        GridNumbers {
            nrows: grid.nrows,
            ncols: grid.ncols,
            bands: grid.bands,
            nbpp: grid.nbpp,
            imode: grid.imode.to_bytes()[0],
            edges: edges_letter(grid.edges),
            nppbh: grid.nppbh,
            nppbv: grid.nppbv,
            nbpr: grid.nbpr,
            nbpc: grid.nbpc,
        }
    }
}

// The fields with their named values as bytes.
impl From<ImageSubheader> for SubheaderBytes {
    ghost from_gives = { λ fields bytes. bytes ≡ bytes_of fields };

    fn from(fields: ImageSubheader) -> Self {
        let irep = fields.irep;
        let icat = fields.icat;
        SubheaderBytes {
            pvtype: fields.pvtype.to_bytes(),
            irep,
            icat,
            abpp: fields.abpp,
            pjust: fields.pjust.to_bytes()[0],
            ic: fields.ic.to_bytes(),
            grid: GridNumbers::from(fields.grid),
        }
    }
}

// The reader's answer as it crosses; zeros beside a refusal.
impl From<Result<ImageSubheader, Refusal>> for SubheaderAnswer {
    ghost from_gives = { λ read answer. answer ≡ answer_of (read_as_of read) };

    fn from(read: Result<ImageSubheader, Refusal>) -> Self {
        match read {
            Ok(fields) => SubheaderAnswer {
                number: 0,
                subheader: SubheaderBytes::from(fields),
            },
            Err(refusal) => SubheaderAnswer {
                number: refusal.number(),
                subheader: SubheaderBytes {
                    pvtype: [0; 3],
                    irep: [0; 8],
                    icat: [0; 8],
                    abpp: 0,
                    pjust: 0,
                    ic: [0; 2],
                    grid: GridNumbers {
                        nrows: 0,
                        ncols: 0,
                        bands: 0,
                        nbpp: 0,
                        imode: 0,
                        edges: 0,
                        nppbh: 0,
                        nppbv: 0,
                        nbpr: 0,
                        nbpc: 0,
                    },
                },
            },
        }
    }
}

// Reads three parts of an image subheader, for a picture of so many bands under an edge rule.
#[tactic(auto, unfolding(crate::specs::Subheaders::answer_of, common::specs::Questions::outcome))]
#[unsafe(no_mangle)]
pub extern "C" fn gezdunar_subheader_read(
    first: &[u8],
    second: &[u8],
    third: &[u8],
    bands: u32,
    edges: u8,
    widths: &[u8],
) -> SubheaderAnswer
    ensures { result ≡ on_known (rule_of edges) (λ e. answer_of
        (read_subheader (table_of widths.now) first.now second.now third.now bands e)) (no_bytes 99) }
{
    match named_rule(edges) {
        Some(rule) => SubheaderAnswer::from(ImageSubheader::read(
            first,
            second,
            third,
            bands,
            rule,
            &Widths::new(widths),
        )),
        None => SubheaderAnswer::from(Err(Refusal::NoMode)),
    }
}

// The fields that the bytes name, under an edge rule; question 24.
#[tactic(auto, unfolding(crate::specs::Subheaders::are_named, common::specs::Tests::every))]
fn fields_of(subheader: SubheaderBytes, edges: EdgeRule) -> Result<ImageSubheader, Refusal>
    ensures number { answer_number result ≡ ask 24 (are_named subheader) 0 }
    ensures same { IfOk result (λ fields. fields ≡ fields_of subheader edges) }
{
    Ok(ImageSubheader {
        pvtype: named_value(&subheader.pvtype)?,
        irep: subheader.irep,
        icat: subheader.icat,
        abpp: subheader.abpp,
        pjust: named_value(&[subheader.pjust])?,
        ic: named_value(&subheader.ic)?,
        grid: grid_in(subheader.grid, named_value(&[subheader.grid.imode])?, edges),
    })
}

// Writes the three parts, under an edge rule.
#[tactic(auto, unfolding(crate::specs::Subheaders::write_under, common::specs::Tests::pick))]
fn write_under(
    subheader: SubheaderBytes,
    edges: EdgeRule,
    widths: &Widths,
    first: &mut [u8],
    second: &mut [u8],
    third: &mut [u8],
) -> Result<(), Refusal>
    ensures { parts_out (answer_number result) first.new second.new third.new
        ≡ write_under widths.now edges subheader first.old second.old third.old }
{
    fields_of(subheader, edges)?.write(widths, first, second, third)
}

// Writes three parts of an image subheader; the edge rule is asked for and not written.
#[tactic(auto, unfolding(crate::specs::Subheaders::write_bytes))]
#[unsafe(no_mangle)]
pub extern "C" fn gezdunar_subheader_write(
    subheader: SubheaderBytes,
    widths: &[u8],
    first: &mut [u8],
    second: &mut [u8],
    third: &mut [u8],
) -> u32
    ensures { parts_out result first.new second.new third.new
        ≡ write_bytes (table_of widths.now) subheader first.old second.old third.old }
{
    match named_rule(subheader.grid.edges) {
        Some(edges) => {
            let widths = Widths::new(widths);
            answer_number(&write_under(subheader, edges, &widths, first, second, third))
        }
        None => Refusal::NoMode.number(),
    }
}
