// Writing the three parts.
ghost use Rattle.std.specs.Prelude.{◌≡◌, ◌≤◌, length};
ghost use Rattle.refusals.specs.Refusals.{answer_number};
ghost use Rattle.fields.specs.Fields.{put_all};
ghost use Rattle.subheader.specs.Subheader.{q9_write, write_number};
ghost use Rattle.subheader.specs.Subheader.{first_entries, second_entries, third_entries};
ghost use Rattle.subheader.specs.Subheader.{side_entries, kind_entries, used_bits_entries};
ghost use Rattle.subheader.specs.Subheader.{parts_out, write_subheader};

use crate::ImageSubheader;
use fields::Field;
use fields::named::Named;
use fields::sides::written_side;
use refusals::Refusal;
use widths::Widths;

// Question 9: do so many bytes hold the parts?
#[tactic(auto, unfolding(crate::specs::Subheader::q9_write, common::specs::Tests::every))]
fn parts_hold(first: usize, second: usize, third: usize) -> bool
    ensures { result ≡ q9_write first second third }
{
    ImageSubheader::FIRST_BYTES <= first
        && ImageSubheader::SECOND_BYTES <= second
        && ImageSubheader::THIRD_BYTES <= third
}

impl ImageSubheader {
    // The questions of the writer: 24, 1 to 4, and 9, for so many bytes of each part.
    fn check_write(
        self,
        widths: &Widths,
        first: usize,
        second: usize,
        third: usize,
    ) -> Result<(), Refusal>
        ensures { answer_number result ≡ write_number widths.now self first second third }
    {
        if Self::MAX_ABPP < self.abpp {
            return Err(Refusal::NamedValue);
        }
        self.grid.check(widths)?;
        if !parts_hold(first, second, third) {
            return Err(Refusal::OutputTooShort);
        }
        Ok(())
    }

    // NROWS and NCOLS. The parts are lent slices, whose lengths a type cannot say; so `put_first` and those it calls
    // ask for 38 bytes.
    fn put_sides(self, part: &mut [u8])
        requires { 38 ≤ length part.old }
        ensures { part.new ≡ put_all part.old (side_entries self) }
    {
        Field::NROWS.put_number(part, self.grid.nrows);
        Field::NCOLS.put_number(part, self.grid.ncols);
    }

    // PVTYPE, IREP and ICAT.
    fn put_kind(self, part: &mut [u8])
        requires { 38 ≤ length part.old }
        ensures { part.new ≡ put_all part.old (kind_entries self) }
    {
        Field::PVTYPE.put_text(part, &self.pvtype.to_bytes());
        Field::IREP.put_text(part, &self.irep);
        Field::ICAT.put_text(part, &self.icat);
    }

    // ABPP and PJUST.
    fn put_used_bits(self, part: &mut [u8])
        requires { 38 ≤ length part.old }
        ensures { part.new ≡ put_all part.old (used_bits_entries self) }
    {
        Field::ABPP.put_number(part, self.abpp);
        Field::PJUST.put_text(part, &self.pjust.to_bytes());
    }

    // NROWS to PJUST.
    fn put_first(self, part: &mut [u8])
        requires { 38 ≤ length part.old }
        ensures { part.new ≡ put_all part.old (first_entries self) }
    {
        self.put_sides(part);
        self.put_kind(part);
        self.put_used_bits(part);
    }

    // IC.
    fn put_second(self, part: &mut [u8])
        requires { 2 ≤ length part.old }
        ensures { part.new ≡ put_all part.old (second_entries self) }
    {
        Field::IC.put_text(part, &self.ic.to_bytes());
    }

    // IMODE to NBPP.
    fn put_third(self, part: &mut [u8])
        requires { 19 ≤ length part.old }
        ensures { part.new ≡ put_all part.old (third_entries self) }
    {
        let grid = self.grid;
        Field::IMODE.put_text(part, &grid.imode.to_bytes());
        Field::NBPR.put_number(part, grid.nbpr);
        Field::NBPC.put_number(part, grid.nbpc);
        Field::NPPBH.put_number(part, written_side(grid.nppbh));
        Field::NPPBV.put_number(part, written_side(grid.nppbv));
        Field::NBPP.put_number(part, grid.nbpp);
    }

    // Writes each part at the front of its output.
    pub fn write(
        self,
        widths: &Widths,
        first: &mut [u8],
        second: &mut [u8],
        third: &mut [u8],
    ) -> Result<(), Refusal>
        ensures { parts_out (answer_number result) first.new second.new third.new
            ≡ write_subheader widths.now self first.old second.old third.old }
    {
        self.check_write(widths, first.len(), second.len(), third.len())?;
        self.put_first(first);
        self.put_second(second);
        self.put_third(third);
        Ok(())
    }
}
