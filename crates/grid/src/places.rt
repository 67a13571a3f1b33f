// Where a block and a sample lie in the image.
ghost use Rattle.std.specs.Prelude.{◌≡◌};
ghost use Rattle.grid.specs.Layout.{held as held_by, place, block_end, whole_span, Sample};
ghost use Rattle.grid.specs.Internal.BlockLayouts.{layout_of};

use crate::{EdgeRule, GridBlock};
use common::pick;
use layout::BlockLayout;

// A part of the image, in bytes.
#[derive(Clone, Copy)]
pub struct Span {
    pub start: usize,
    pub length: usize,
}

// Of so many actual and so many nominal rows, or columns, those that a block's runs hold at widths that are no byte
// multiples.
fn held(edges: EdgeRule, actual: usize, nominal: usize) -> usize
    ensures { result ≡ held_by edges actual nominal }
{
    match edges {
        EdgeRule::Tight => actual,
        EdgeRule::Full => nominal,
    }
}

impl GridBlock {
    // The layout of the block in the image.
    pub fn layout(self) -> BlockLayout
        ensures { result ≡ layout_of self.grid.grid self.row self.column }
    {
        let grid = self.grid.grid;
        let t = self.grid.band_bytes();
        let apart = grid.imode.bands_apart();
        let whole = grid.is_byte_multiple();
        let rows = self.rows();
        let columns = self.columns();
        let first = self.index() * pick(apart, t, self.grid.block_bytes());
        let next = pick(apart, self.grid.blocks() * t, t);
        let block_rows = grid.nppbv as usize;
        let block_columns = grid.nppbh as usize;
        let run_rows = pick(whole, block_rows, held(grid.edges, rows, block_rows));
        let run_columns = pick(
            whole,
            block_columns,
            held(grid.edges, columns, block_columns),
        );
        BlockLayout {
            first,
            apart: next,
            run_bytes: t,
            rows,
            columns,
            run_rows,
            run_columns,
            mode: grid.imode,
            bands: grid.bands,
            nbpp: grid.nbpp,
        }
    }

    // The first bit of sample (b, r, c), counted from the image's first byte on, high bit first.
    pub fn sample_place(self, b: usize, r: usize, c: usize) -> usize
        requires { Sample self.grid.grid self.row self.column b r c }
        ensures { result ≡ place self.grid.grid self.row self.column b r c }
    {
        self.layout().sample_place(b, r, c)
    }

    // Question 7: the end of the last actual sample, or at other widths of the last run.
    pub fn end(self) -> usize
        ensures { result ≡ block_end self.grid.grid self.row self.column }
    {
        self.layout().end()
    }

    // The whole nominal block in the image; nothing, at 0, in S, where its bands lie apart.
    pub fn whole(self) -> Span
        ensures { result ≡ whole_span self.grid.grid self.row self.column }
    {
        let apart = self.grid.grid.imode.bands_apart();
        let size = self.grid.block_bytes();
        Span {
            start: pick(apart, 0, self.index() * size),
            length: pick(apart, 0, size),
        }
    }
}
