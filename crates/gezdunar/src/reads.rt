// Reading across the boundary.
ghost use Rattle.std.specs.Prelude.{◌≡◌, length};
ghost use Rattle.layout.specs.Bands.{bands_of};
ghost use Rattle.widths.specs.Widths.{table_of};
ghost use Rattle.grid.specs.Check.{grid_number};
ghost use Rattle.calls.specs.Orders.{rectangle};
ghost use Rattle.calls.specs.Reads.{filled_with, block_read, window};
ghost use Rattle.gezdunar.specs.Boundary.{named_grid, on_known, unknown_shape, empty_at, place_of, whole_place};

use crate::names::{asked_bands, named_grid};
use crate::{GridNumbers, Place};
use calls::Shape;
use grid::places::Span;
use refusals::{Refusal, answer_number};
use widths::Widths;
use windows::Rectangle;

// Questions 1 to 4.
#[unsafe(no_mangle)]
pub extern "C" fn gezdunar_grid_check(numbers: GridNumbers, widths: &[u8]) -> u32
    ensures { result ≡ on_known (named_grid numbers) (grid_number (table_of widths.now)) 99 }
{
    match named_grid(numbers) {
        Some(grid) => answer_number(&grid.check(&Widths::new(widths))),
        None => Refusal::NoMode.number(),
    }
}

// The samples of a block.
#[unsafe(no_mangle)]
pub extern "C" fn gezdunar_decode_block(
    image: &[u8],
    numbers: GridNumbers,
    widths: &[u8],
    block_row: u32,
    block_col: u32,
    resolution_level: u32,
    all: bool,
    list: &[u32],
    out: &mut [u8],
) -> Shape
    ensures { filled_with result out.new ≡ on_known (named_grid numbers)
        (λ g. block_read (table_of widths.now) g image.now block_row block_col resolution_level
        (bands_of all list.now) out.old)
        (filled_with unknown_shape out.old) }
{
    let asked = asked_bands(all, list);
    match named_grid(numbers) {
        Some(grid) => Shape::from(reading::decode_block(
            image,
            grid,
            &Widths::new(widths),
            block_row,
            block_col,
            resolution_level,
            asked,
            out,
        )),
        None => Shape::from(Err(Refusal::NoMode)),
    }
}

// A rectangle of the picture.
#[unsafe(no_mangle)]
pub extern "C" fn gezdunar_read_window(
    image: &[u8],
    numbers: GridNumbers,
    widths: &[u8],
    row: u32,
    column: u32,
    rows: u32,
    columns: u32,
    all: bool,
    list: &[u32],
    out: &mut [u8],
) -> Shape
    ensures { filled_with result out.new ≡ on_known (named_grid numbers)
        (λ g. window (table_of widths.now) g image.now
        (rectangle row column rows columns (bands_of all list.now)) out.old)
        (filled_with unknown_shape out.old) }
{
    let area = Rectangle {
        row,
        column,
        rows,
        columns,
    };
    let asked = asked_bands(all, list);
    match named_grid(numbers) {
        Some(grid) => Shape::from(windows::read_window(
            image,
            grid,
            &Widths::new(widths),
            area,
            asked,
            out,
        )),
        None => Shape::from(Err(Refusal::NoMode)),
    }
}

impl From<Result<Span, Refusal>> for Place {
    ghost from_gives = { λ found place. place ≡ place_of found };

    fn from(found: Result<Span, Refusal>) -> Self {
        match found {
            Ok(span) => Place {
                number: 0,
                start: span.start,
                length: span.length,
            },
            Err(refusal) => Place {
                number: refusal.number(),
                start: 0,
                length: 0,
            },
        }
    }
}

// Where the whole nominal block lies in the image, and its number; nothing, at 0, beside a refusal and in S.
#[unsafe(no_mangle)]
pub extern "C" fn gezdunar_whole_block(
    image: &[u8],
    numbers: GridNumbers,
    widths: &[u8],
    block_row: u32,
    block_col: u32,
) -> Place
    ensures { result ≡ on_known (named_grid numbers)
        (λ g. whole_place (table_of widths.now) g (length image.now) block_row block_col) (empty_at 99) }
{
    match named_grid(numbers) {
        Some(grid) => Place::from(reading::whole::find_whole(
            image,
            grid,
            &Widths::new(widths),
            block_row,
            block_col,
        )),
        None => Place::from(Err(Refusal::NoMode)),
    }
}
