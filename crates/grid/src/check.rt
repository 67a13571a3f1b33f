// Questions 1 to 4.
ghost use Rattle.std.specs.Prelude.{◌≡◌, true, IfOk};
ghost use Rattle.refusals.specs.Refusals.{answer_number};
ghost use Rattle.common.specs.Questions.{ask};
ghost use Rattle.widths.specs.Widths.{width_taken};
ghost use Rattle.grid.specs.declared.EdgeRule.TheVariants.{Tight};
ghost use Rattle.grid.specs.Check.{block_side, q1, q3, q4, q6, q11, grid_number, grid_of};
ghost use Rattle.grid.specs.EdgeRules.{under_full};
ghost use Rattle.grid.specs.Internal.Blocks.{IsBlock};

use crate::{AcceptedGrid, EdgeRule, Grid, GridBlock};
use common::{ceil_div, within};
use layout::InterleaveMode;
use refusals::Refusal;
use widths::Widths;

// Is a side of a block within its limit, or the picture's own?
fn block_side_fits(side: u32, picture: u32) -> bool
    ensures { result ≡ block_side side picture }
{
    within(1, Grid::MAX_BLOCK_SIDE, side) || side == picture
}

impl Grid {
    pub const MAX_PICTURE_SIDE: u32 = 99_999_999;

    // The most rows or columns of a block that is not as high or as wide as the picture.
    pub const MAX_BLOCK_SIDE: u32 = 8_192;

    pub const MAX_BANDS: u32 = 99_999;

    // The most blocks across or down.
    pub const MAX_BLOCKS: u32 = 9_999;

    pub const MAX_IMAGE_BYTES: u64 = 4_294_967_294;

    // A picture in blocks of `nppbv` rows and `nppbh` columns; NBPR and NBPC follow from the sides.
    pub fn new(
        nrows: u32,
        ncols: u32,
        bands: u32,
        nbpp: u32,
        imode: InterleaveMode,
        edges: EdgeRule,
        nppbh: u32,
        nppbv: u32,
    ) -> Self
        ensures { result ≡ grid_of nrows ncols bands nbpp imode edges nppbh nppbv }
    {
        let nbpr = ceil_div(ncols, nppbh);
        let nbpc = ceil_div(nrows, nppbv);
        Self {
            nrows,
            ncols,
            bands,
            nbpp,
            imode,
            edges,
            nppbh,
            nppbv,
            nbpr,
            nbpc,
        }
    }

    // A picture that is one block; it lies the same under both edge rules.
    pub fn one_block(nrows: u32, ncols: u32, bands: u32, nbpp: u32, imode: InterleaveMode) -> Self
        ensures { result ≡ grid_of nrows ncols bands nbpp imode Tight ncols nrows }
    {
        Self::new(
            nrows,
            ncols,
            bands,
            nbpp,
            imode,
            EdgeRule::Tight,
            ncols,
            nrows,
        )
    }

    // Question 1.
    #[tactic(auto, unfolding(crate::specs::Check::q1, common::specs::Tests::every))]
    fn sides_fit(self) -> bool
        ensures { result ≡ q1 self }
    {
        within(1, Self::MAX_PICTURE_SIDE, self.nrows)
            && within(1, Self::MAX_PICTURE_SIDE, self.ncols)
            && block_side_fits(self.nppbh, self.ncols)
            && block_side_fits(self.nppbv, self.nrows)
            && within(1, Self::MAX_BANDS, self.bands)
    }

    // Question 3.
    #[tactic(auto, unfolding(crate::specs::Check::q3, common::specs::Tests::every))]
    fn blocks_fit(self) -> bool
        ensures { result ≡ q3 self }
    {
        self.nbpr == ceil_div(self.ncols, self.nppbh)
            && self.nbpc == ceil_div(self.nrows, self.nppbv)
            && self.nbpr <= Self::MAX_BLOCKS
            && self.nbpc <= Self::MAX_BLOCKS
    }

    // Question 4. The product is held against a quotient, so that it cannot wrap.
    fn image_fits(self) -> bool
        requires { (q1 self ≡ true) × (width_taken self.nbpp ≡ true) × (q3 self ≡ true) }
        ensures { result ≡ q4 self }
    {
        let t = self.band_bytes_of_sides() as u64;
        let across = self.nbpr as u64;
        let down = self.nbpc as u64;
        let bands = self.bands as u64;
        across * down * bands <= Self::MAX_IMAGE_BYTES / t
    }

    // Question 6: is the block inside the grid?
    #[tactic(auto, unfolding(crate::specs::Check::q6, common::specs::Tests::every))]
    pub fn has_block(self, row: u32, column: u32) -> bool
        ensures { result ≡ q6 self row column }
    {
        row < self.nbpc && column < self.nbpr
    }

    // Questions 1 to 4, with the table that the call is handed. Inlined, since a mask's lookup takes two thirds of the
    // time then.
    #[inline(always)]
    pub fn check(self, widths: &Widths) -> Result<AcceptedGrid, Refusal>
        ensures number { answer_number result ≡ grid_number widths.now self }
        ensures same { IfOk result (λ a. a.grid ≡ self) }
    {
        if !self.sides_fit() {
            return Err(Refusal::Limits);
        }
        if !widths.takes(self.nbpp) {
            return Err(Refusal::Width);
        }
        if !self.blocks_fit() {
            return Err(Refusal::BlockCounts);
        }
        if !self.image_fits() {
            return Err(Refusal::TooLarge);
        }
        Ok(AcceptedGrid { grid: self })
    }
}

impl AcceptedGrid {
    // A block of the grid. Asks question 6.
    pub fn block(self, row: u32, column: u32) -> Result<GridBlock, Refusal>
        ensures number { answer_number result ≡ ask 6 (q6 self.grid row column) 0 }
        ensures same { IfOk result (IsBlock self.grid row column) }
    {
        if !self.grid.has_block(row, column) {
            return Err(Refusal::BlockOutsideGrid);
        }
        Ok(GridBlock {
            grid: self,
            row: row as usize,
            column: column as usize,
        })
    }

    // The same grid under full.
    pub fn under_full(self) -> AcceptedGrid
        ensures { result.grid ≡ under_full self.grid }
    {
        AcceptedGrid {
            grid: Grid {
                edges: EdgeRule::Full,
                ..self.grid
            },
        }
    }

    // Question 11: do so many bytes hold the image?
    pub fn fits_in(self, bytes: usize) -> bool
        ensures { result ≡ q11 self.grid bytes }
    {
        self.image_bytes() <= bytes
    }
}
