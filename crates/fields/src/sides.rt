// A block's side in its field, where zero stands for the picture's own.
ghost use Rattle.std.specs.Prelude.{◌≡◌};
ghost use Rattle.fields.specs.Sides.{effective, written_side};

use grid::Grid;

// The side of a block, from its field; zero with one block along the side stands for the picture's.
#[tactic(auto, unfolding(crate::specs::Sides::effective, common::specs::Tests::every, common::specs::Tests::pick))]
pub fn effective_side(size: u32, blocks: u32, side: u32) -> u32
    ensures { result ≡ effective size blocks side }
{
    if size == 0 && blocks == 1 { side } else { size }
}

// The field of a block's side: zero above 8,192.
#[tactic(auto, unfolding(crate::specs::Sides::written_side, common::specs::Tests::pick))]
pub fn written_side(size: u32) -> u32
    ensures { result ≡ written_side size }
{
    if size <= Grid::MAX_BLOCK_SIDE {
        size
    } else {
        0
    }
}
