// Sizes of a grid across the boundary.
ghost use Rattle.std.specs.Prelude.{◌≡◌, MatchResult};
ghost use Rattle.refusals.specs.Refusals.{number_of};
ghost use Rattle.widths.specs.Widths.{table_of};
ghost use Rattle.gezdunar.specs.Boundary.{named_grid, on_known, accepted_sizes, no_sizes, sizes_of};

use crate::names::named_grid;
use crate::{GridNumbers, GridSizes};
use grid::AcceptedGrid;
use refusals::Refusal;
use widths::Widths;

impl From<Result<AcceptedGrid, Refusal>> for GridSizes {
    ghost from_gives = { λ checked sizes. MatchResult checked (λ a. sizes ≡ accepted_sizes a.grid)
        (λ refusal. sizes ≡ no_sizes (number_of refusal)) };

    fn from(checked: Result<AcceptedGrid, Refusal>) -> Self {
        match checked {
            Ok(grid) => {
                let blocks = grid.blocks();
                GridSizes {
                    number: 0,
                    sample_bytes: grid.sample_bytes(),
                    band_bytes: grid.band_bytes(),
                    block_bytes: grid.block_bytes(),
                    image_bytes: grid.image_bytes(),
                    blocks,
                    mark_words: marks::mark_words(blocks),
                }
            }
            Err(refusal) => GridSizes {
                number: refusal.number(),
                sample_bytes: 0,
                band_bytes: 0,
                block_bytes: 0,
                image_bytes: 0,
                blocks: 0,
                mark_words: 0,
            },
        }
    }
}

// The sizes of an accepted grid; zeros beside a refusal.
#[unsafe(no_mangle)]
pub extern "C" fn gezdunar_grid_sizes(numbers: GridNumbers, widths: &[u8]) -> GridSizes
    ensures { result ≡ on_known (named_grid numbers) (sizes_of (table_of widths.now)) (no_sizes 99) }
{
    match named_grid(numbers) {
        Some(grid) => GridSizes::from(grid.check(&Widths::new(widths))),
        None => GridSizes::from(Err(Refusal::NoMode)),
    }
}
