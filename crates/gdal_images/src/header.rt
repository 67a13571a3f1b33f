// Where the three parts of the image subheader and the image stand, in a file of MIL-STD-2500C with one image of two
// bands that has no corner coordinates (ICORDS), no comments (NICOM) and no look-up tables (NLUTS).
ghost use Rattle.std.specs.Prelude.{◌<◌};

use grid::EdgeRule;
use refusals::Refusal;
use subheader::ImageSubheader;
use widths::Widths;

// Fields of the file header: the lengths of this header, of the image subheader and of the image.
const HL: usize = 354;

const LISH001: usize = 363;

const LI001: usize = 369;

// Fields of the image subheader: the first of each part, and the count of bands.
const NROWS: usize = 333;

const IC: usize = 373;

const NBANDS: usize = 375;

const IMODE: usize = 403;

// So many bytes; None where there are fewer.
fn part(bytes: &[u8], at: usize, size: usize) -> Option<&[u8]> {
    bytes.get(at..at.checked_add(size)?)
}

// A decimal digit, the low four bits of its byte; past the end it is 0. Here `parse` would answer nothing, and a file
// that is cut short would not be refused by 23.
fn digit(bytes: &[u8], at: usize) -> u8 {
    bytes.get(at).map_or(0, |byte| *byte % 16)
}

// The number with one more decimal digit; of a long number the last ten digits are kept.
fn with_digit(number: usize, digit: u8) -> usize
    ensures { result < 20000000000 }
{
    number % 1_000_000_000 * 10 + digit as usize
}

// A field of so many digits.
fn field(bytes: &[u8], at: usize, digits: usize) -> usize
    requires { (at < 100000000000) × (digits < 16) }
    ensures { result < 20000000000 }
{
    (at..at + digits).fold(0, |number, at| with_digit(number, digit(bytes, at)))
}

// The bytes of the file from the image subheader on.
fn from_subheader(file: &[u8]) -> Option<&[u8]> {
    file.get(field(file, HL, 6)..)
}

// Where the image's bytes start.
pub fn image_start(file: &[u8]) -> usize
    ensures { result < 40000000000 }
{
    field(file, HL, 6) + field(file, LISH001, 6)
}

// The bytes of the image.
pub fn image_of(file: &[u8]) -> Option<&[u8]> {
    part(file, image_start(file), field(file, LI001, 10))
}

// A part of the image subheader; a file that ends before it is refused.
fn subheader_part(subheader: &[u8], at: usize, size: usize) -> Result<&[u8], Refusal> {
    part(subheader, at, size).ok_or(Refusal::SubheaderPart)
}

// What the image subheader says; the standard's blocks are full.
pub fn subheader_of(file: &[u8]) -> Result<ImageSubheader, Refusal> {
    let subheader = from_subheader(file).ok_or(Refusal::SubheaderPart)?;
    let first = subheader_part(subheader, NROWS, ImageSubheader::FIRST_BYTES)?;
    let second = subheader_part(subheader, IC, ImageSubheader::SECOND_BYTES)?;
    let third = subheader_part(subheader, IMODE, ImageSubheader::THIRD_BYTES)?;
    let bands = digit(subheader, NBANDS) as u32;
    let edges = EdgeRule::Full;
    ImageSubheader::read(first, second, third, bands, edges, &Widths::STANDARD)
}
