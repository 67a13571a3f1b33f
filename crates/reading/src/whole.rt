// The whole nominal block, as a part of the caller's image bytes.
ghost use Rattle.std.specs.Prelude.{◌≡◌, ◌+◌, length, IfOk};
ghost use Rattle.refusals.specs.Refusals.{answer_number};
ghost use Rattle.grid.specs.Layout.{whole_span};
ghost use Rattle.calls.specs.Orders.{whole_number};
ghost use Rattle.calls.specs.Reads.{whole_block, whole_at};

use grid::Grid;
use grid::places::Span;
use refusals::Refusal;
use widths::Widths;

// Where the whole nominal block lies in the image. In S, where it is empty, question 7 is always answered yes.
pub fn find_whole(
    image: &[u8],
    grid: Grid,
    widths: &Widths,
    block_row: u32,
    block_col: u32,
) -> Result<Span, Refusal>
    ensures number { answer_number result ≡ whole_number widths.now grid (length image.now) block_row block_col }
    ensures span { IfOk result (λ s. s ≡ whole_span grid block_row block_col) }
{
    let accepted = grid.check(widths)?;
    let block = accepted.block(block_row, block_col)?;
    let span = block.whole();
    if image.len() < span.start + span.length {
        return Err(Refusal::ImageEnds);
    }
    Ok(span)
}

// The bytes of the whole nominal block in B, P and R: that part of the image itself, and no copy of it. A refusal, or
// mode S, gives an empty part at the image's start.
pub fn whole_block<'a>(
    image: &'a [u8],
    grid: Grid,
    widths: &Widths,
    block_row: u32,
    block_col: u32,
) -> &'a [u8]
    ensures bytes { result.now ≡ whole_block widths.now grid image.now block_row block_col }
    ensures place { (result.ref_ptr.0 ≡ image.entry.ref_ptr.0)
        × (result.ref_ptr.1 ≡ image.entry.ref_ptr.1 + whole_at widths.now grid (length image.now) block_row block_col) }
{
    match find_whole(image, grid, widths, block_row, block_col) {
        Ok(span) => &image[span.start..span.start + span.length],
        Err(_) => &image[..0],
    }
}
