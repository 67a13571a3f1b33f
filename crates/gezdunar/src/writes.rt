// Writing across the boundary.
ghost use Rattle.std.specs.Prelude.{◌≡◌};
ghost use Rattle.widths.specs.Widths.{table_of};
ghost use Rattle.calls.specs.Writes.{frame_out, number as plain_answer, start, write, skip, progress, finish};
ghost use Rattle.refusals.specs.Refusals.{answer_number};
ghost use Rattle.calls.specs.Relay.{relay};
ghost use Rattle.gezdunar.specs.Boundary.{named_grid, on_known, relay_out, relay_answer, relaid_out};

use crate::names::named_grid;
use crate::{GridNumbers, RelayAnswer};
use calls::{Answer, Extent};
use grid::Grid;
use refusals::Refusal;
use widths::Widths;

// Starts a frame.
#[unsafe(no_mangle)]
pub extern "C" fn gezdunar_start(
    image: &mut [u8],
    marks: &mut [u64],
    numbers: GridNumbers,
    widths: &[u8],
) -> Answer
    ensures { frame_out result image.new marks.new ≡ on_known (named_grid numbers)
        (λ g. start (table_of widths.now) g image.old marks.old)
        (frame_out (plain_answer 99) image.old marks.old) }
{
    match named_grid(numbers) {
        Some(grid) => Answer::from(writing::start(image, marks, grid, &Widths::new(widths))),
        None => Answer::from(Refusal::NoMode),
    }
}

// Stores the samples of a block and marks it.
#[unsafe(no_mangle)]
pub extern "C" fn gezdunar_encode_block(
    image: &mut [u8],
    marks: &mut [u64],
    numbers: GridNumbers,
    widths: &[u8],
    block_row: u32,
    block_col: u32,
    shape_bands: usize,
    shape_rows: usize,
    shape_columns: usize,
    data: &[u8],
) -> Answer
    ensures { frame_out result image.new marks.new ≡ on_known (named_grid numbers)
        (λ g. write (table_of widths.now) g image.old marks.old block_row block_col
        shape_bands shape_rows shape_columns «data».now)
        (frame_out (plain_answer 99) image.old marks.old) }
{
    let shape = Extent {
        bands: shape_bands,
        rows: shape_rows,
        columns: shape_columns,
    };
    match named_grid(numbers) {
        Some(grid) => Answer::from(writing::encode_block(
            image,
            marks,
            grid,
            &Widths::new(widths),
            block_row,
            block_col,
            shape,
            data,
        )),
        None => Answer::from(Refusal::NoMode),
    }
}

// Marks a block and keeps its bytes.
#[unsafe(no_mangle)]
pub extern "C" fn gezdunar_skip_block(
    image: &[u8],
    marks: &mut [u64],
    numbers: GridNumbers,
    widths: &[u8],
    block_row: u32,
    block_col: u32,
) -> Answer
    ensures { frame_out result image.now marks.new ≡ on_known (named_grid numbers)
        (λ g. skip (table_of widths.now) g image.now marks.old block_row block_col)
        (frame_out (plain_answer 99) image.now marks.old) }
{
    match named_grid(numbers) {
        Some(grid) => Answer::from(writing::skip_block(
            image,
            marks,
            grid,
            &Widths::new(widths),
            block_row,
            block_col,
        )),
        None => Answer::from(Refusal::NoMode),
    }
}

// How many blocks are marked.
#[unsafe(no_mangle)]
pub extern "C" fn gezdunar_progress(marks: &[u64], numbers: GridNumbers, widths: &[u8]) -> Answer
    ensures { result ≡ on_known (named_grid numbers)
        (λ g. progress (table_of widths.now) g marks.now) (plain_answer 99) }
{
    match named_grid(numbers) {
        Some(grid) => Answer::from(writing::progress(marks, grid, &Widths::new(widths))),
        None => Answer::from(Refusal::NoMode),
    }
}

// Is every block marked?
#[unsafe(no_mangle)]
pub extern "C" fn gezdunar_finalize(
    image: &[u8],
    marks: &[u64],
    numbers: GridNumbers,
    widths: &[u8],
) -> Answer
    ensures { result ≡ on_known (named_grid numbers)
        (λ g. finish (table_of widths.now) g image.now marks.now) (plain_answer 99) }
{
    match named_grid(numbers) {
        Some(grid) => Answer::from(writing::finalize(image, marks, grid, &Widths::new(widths))),
        None => Answer::from(Refusal::NoMode),
    }
}

// The number of a re-lay, beside the numbers of the grid that is then in force.
fn relay_answer(numbers: GridNumbers, answer: Result<Grid, Refusal>) -> RelayAnswer
    ensures { result ≡ relay_answer numbers (answer_number answer) }
{
    match answer {
        Ok(_) => RelayAnswer {
            number: 0,
            grid: GridNumbers {
                edges: b'F',
                ..numbers
            },
        },
        Err(refusal) => RelayAnswer {
            number: refusal.number(),
            grid: numbers,
        },
    }
}

// Lays every block of a frame anew, from tight to full edge blocks.
#[unsafe(no_mangle)]
pub extern "C" fn gezdunar_relay(
    image: &mut [u8],
    marks: &[u64],
    numbers: GridNumbers,
    widths: &[u8],
    scratch: &mut [u8],
) -> RelayAnswer
    ensures { relay_out result image.new scratch.new ≡ on_known (named_grid numbers)
        (λ g. relaid_out numbers (relay (table_of widths.now) g image.old marks.now scratch.old))
        (relay_out (relay_answer numbers 99) image.old scratch.old) }
{
    match named_grid(numbers) {
        Some(grid) => {
            let widths = Widths::new(widths);
            relay_answer(
                numbers,
                writing::relay(image, marks, grid, &widths, scratch),
            )
        }
        None => relay_answer(numbers, Err(Refusal::NoMode)),
    }
}
