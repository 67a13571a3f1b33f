// Reading the three parts.
ghost use Rattle.std.specs.Prelude.{◌≡◌, true, length, IfOk};
ghost use Rattle.common.specs.Questions.{ask};
ghost use Rattle.refusals.specs.Refusals.{answer_number};
ghost use Rattle.fields.specs.Fields.{bytes_in, IMODE};
ghost use Rattle.fields.specs.Named.{is_named, value_of, imodes, imode_text};
ghost use Rattle.subheader.specs.Subheader.{parts_fit, first_numbers, third_numbers, q23, q24};
ghost use Rattle.subheader.specs.Subheader.{effective_nppbh, effective_nppbv, grid_of_parts, fields_in};
ghost use Rattle.subheader.specs.Subheader.{read_as_of, read_subheader};
ghost use Rattle.subheader.specs.Internal.Parts.{Numbered};

use crate::ImageSubheader;
use fields::Field;
use fields::named::Named;
use fields::sides::effective_side;
use grid::{EdgeRule, Grid};
use refusals::Refusal;
use widths::Widths;

// Have the parts their lengths?
#[tactic(auto, unfolding(crate::specs::Subheader::parts_fit, common::specs::Tests::every))]
fn parts_fit(first: usize, second: usize, third: usize) -> bool
    ensures { result ≡ parts_fit first second third }
{
    first == ImageSubheader::FIRST_BYTES
        && second == ImageSubheader::SECOND_BYTES
        && third == ImageSubheader::THIRD_BYTES
}

// Are the numeric fields of the first part all digits?
#[tactic(auto, unfolding(crate::specs::Subheader::first_numbers, common::specs::Tests::every))]
fn first_numbers(first: &[u8]) -> bool
    requires { length first.now ≡ 38 }
    ensures { result ≡ first_numbers first.now }
{
    Field::NROWS.is_number(first) && Field::NCOLS.is_number(first) && Field::ABPP.is_number(first)
}

// Are those of the third?
#[tactic(auto, unfolding(crate::specs::Subheader::third_numbers, common::specs::Tests::every))]
fn third_numbers(third: &[u8]) -> bool
    requires { length third.now ≡ 19 }
    ensures { result ≡ third_numbers third.now }
{
    Field::NBPR.is_number(third)
        && Field::NBPC.is_number(third)
        && Field::NPPBH.is_number(third)
        && Field::NPPBV.is_number(third)
        && Field::NBPP.is_number(third)
}

// Have they their lengths, and their numeric fields digits?
#[tactic(auto, using(crate::proofs::Parts::fits), unfolding(crate::specs::Subheader::q23, common::specs::Tests::every))]
fn are_parts(first: &[u8], second: &[u8], third: &[u8]) -> bool
    ensures { result ≡ q23 first.now second.now third.now }
{
    parts_fit(first.len(), second.len(), third.len())
        && first_numbers(first)
        && third_numbers(third)
}

// The value that is written so; question 24 of one field.
pub fn named_value<const N: usize, T: Named<N>>(bytes: &[u8]) -> Result<T, Refusal>
    ensures number { answer_number result ≡ ask 24 (is_named T.text T.values bytes.now) 0 }
    ensures value { IfOk result (λ value. (other : T) → value ≡ value_of T.text T.values other bytes.now) }
{
    T::named(bytes).ok_or(Refusal::NamedValue)
}

// Three parts that question 23 accepts.
#[derive(Clone, Copy)]
struct Parts<'a> {
    first: &'a [u8],
    second: &'a [u8],
    third: &'a [u8],
    ghost numbered: { Numbered first.now second.now third.now },
}

impl<'a> Parts<'a> {
    // Question 23.
    #[tactic(auto, using(crate::proofs::Parts::numbered))]
    fn new(first: &'a [u8], second: &'a [u8], third: &'a [u8]) -> Result<Self, Refusal>
        ensures number { answer_number result ≡ ask 23 (q23 first.now second.now third.now) 0 }
        ensures same { IfOk result (λ parts. (parts.first.now ≡ first.now)
            × (parts.second.now ≡ second.now) × (parts.third.now ≡ third.now)) }
    {
        if !are_parts(first, second, third) {
            return Err(Refusal::SubheaderPart);
        }
        Ok(Self {
            first,
            second,
            third,
        })
    }

    // The columns of a block: NPPBH, or NCOLS where NPPBH is zero with NBPR 1.
    fn effective_nppbh(self) -> u32
        ensures { result ≡ effective_nppbh self.entry.first.now self.entry.third.now }
    {
        effective_side(
            Field::NPPBH.number_in(self.third),
            Field::NBPR.number_in(self.third),
            Field::NCOLS.number_in(self.first),
        )
    }

    // The rows of a block: NPPBV, or NROWS where NPPBV is zero with NBPC 1.
    fn effective_nppbv(self) -> u32
        ensures { result ≡ effective_nppbv self.entry.first.now self.entry.third.now }
    {
        effective_side(
            Field::NPPBV.number_in(self.third),
            Field::NBPC.number_in(self.third),
            Field::NROWS.number_in(self.first),
        )
    }

    // The grid of the fields, with so many bands and an edge rule; question 24 of IMODE.
    fn grid(self, bands: u32, edges: EdgeRule) -> Result<Grid, Refusal>
        ensures number { answer_number result
            ≡ ask 24 (is_named imode_text imodes (bytes_in self.entry.third.now IMODE)) 0 }
        ensures same { IfOk result (λ grid. grid
            ≡ grid_of_parts self.entry.first.now self.entry.third.now bands edges) }
    {
        Ok(Grid {
            nrows: Field::NROWS.number_in(self.first),
            ncols: Field::NCOLS.number_in(self.first),
            bands,
            nbpp: Field::NBPP.number_in(self.third),
            imode: named_value(Field::IMODE.bytes_in(self.third))?,
            edges,
            nppbh: self.effective_nppbh(),
            nppbv: self.effective_nppbv(),
            nbpr: Field::NBPR.number_in(self.third),
            nbpc: Field::NBPC.number_in(self.third),
        })
    }

    // All fields; question 24.
    #[tactic(auto, unfolding(crate::specs::Subheader::q24, common::specs::Tests::every))]
    fn fields(self, bands: u32, edges: EdgeRule) -> Result<ImageSubheader, Refusal>
        ensures number { answer_number result
            ≡ ask 24 (q24 self.entry.first.now self.entry.second.now self.entry.third.now) 0 }
        ensures same { IfOk result (λ subheader. subheader
            ≡ fields_in self.entry.first.now self.entry.second.now self.entry.third.now bands edges) }
    {
        Ok(ImageSubheader {
            pvtype: named_value(Field::PVTYPE.bytes_in(self.first))?,
            irep: Field::IREP.bytes_in(self.first).try_into().unwrap(),
            icat: Field::ICAT.bytes_in(self.first).try_into().unwrap(),
            abpp: Field::ABPP.number_in(self.first),
            pjust: named_value(Field::PJUST.bytes_in(self.first))?,
            ic: named_value(Field::IC.bytes_in(self.second))?,
            grid: self.grid(bands, edges)?,
        })
    }
}

impl ImageSubheader {
    // Reads the three parts, for a picture of so many bands with an edge rule; the parts hold neither.
    pub fn read(
        first: &[u8],
        second: &[u8],
        third: &[u8],
        bands: u32,
        edges: EdgeRule,
        widths: &Widths,
    ) -> Result<Self, Refusal>
        ensures { read_as_of result
            ≡ read_subheader widths.now first.now second.now third.now bands edges }
    {
        let subheader = Parts::new(first, second, third)?.fields(bands, edges)?;
        subheader.grid.check(widths)?;
        Ok(subheader)
    }
}
