// The samples of a block, put at their places piece by piece. What the image holds stands in contracts, since it is
// lent for each piece.
ghost use Rattle.std.specs.Prelude.{◌≡◌, length};
ghost use Rattle.bits.specs.Bits.{Bytes};
ghost use Rattle.layout.specs.Internal.Layout.{sample_bytes};
ghost use Rattle.moves.specs.Internal.Parts.{whole_part};
ghost use Rattle.moves.specs.Internal.Stores.{Storable};
ghost use Rattle.moves.specs.Internal.Spacings.{image_spacing, plane_spacing};

use crate::order::{Area, Order, Piece, STORED_AT_ONCE, Way, choose};
use crate::runs::{RowRuns, put_row};
use crate::spacing::Spacing;
use layout::BlockLayout;
use rows::rows::{ByteRows, Rows};
use rows::whole::gather_rows;
use rows::write_rows;
use samples::row::{ByteRow, Row};

#[derive(Clone, Copy)]
pub struct BlockStore<'a> {
    pub samples: &'a [u8],
    pub layout: BlockLayout,
    // Where the samples of the block lie: in the image in bits, where the layout has strides, and in `samples` in
    // bytes.
    pub places: Spacing,
    pub planes: Spacing,
    ghost bytes: { Bytes samples.now },
    ghost storable: { Storable layout samples.now },
    ghost places_are: { places ≡ image_spacing layout (whole_part layout.rows layout.columns) },
    ghost planes_are: { planes ≡ plane_spacing (whole_part layout.rows layout.columns) layout.rows layout.columns
        (sample_bytes layout) },
}

impl BlockStore<'_> {
    ghost use Rattle.moves.specs.Internal.BlockStores.{HasPut, ImageHolds, Moves, put_all_of};
    ghost use Rattle.moves.specs.Internal.Orders.{InPiece, InArea, AreaMoves};

    // Puts rows of a band. The samples of a row stand evenly.
    fn rows(&self, piece: Piece, image: &mut [u8])
        requires image_holds { ImageHolds self.now image.old }
        requires moves { Moves self.now Way.Rows piece }
        ensures { HasPut self.now (InPiece piece) image.old image.new }
    {
        let b = piece.bands.from;
        let row = piece.rows.from;
        let column = piece.columns.from;
        let from = self.planes.at(b, row, column);
        let at = self.places.at(b, row, column);
        let first = Row {
            at,
            step: self.places.column,
            width: self.layout.nbpp as usize,
            size: self.planes.column,
            count: piece.columns.count,
            data_at: from,
        };
        let rows = Rows {
            first,
            count: piece.rows.count,
            apart: self.places.row,
            data_apart: self.planes.row,
        };
        write_rows(self.samples, rows, image)
    }

    // Puts a row of several bands, pixel by pixel.
    fn pixels(&self, piece: Piece, image: &mut [u8])
        requires image_holds { ImageHolds self.now image.old }
        requires moves { Moves self.now Way.Pixels piece }
        requires bytes { Bytes image.old }
        ensures { HasPut self.now (InPiece piece) image.old image.new }
    {
        let b = piece.bands.from;
        let row = piece.rows.from;
        let column = piece.columns.from;
        let from = self.planes.at(b, row, column);
        let at = self.places.at(b, row, column);
        // a row has the bands of a pixel, which stand side by side in the image
        let first = ByteRow {
            at: from,
            step: self.planes.band,
            size: self.planes.column,
            count: piece.bands.count,
            data_at: at / 8,
        };
        let pixels = ByteRows {
            first,
            count: piece.columns.count,
            apart: self.planes.column,
            data_apart: self.places.column / 8,
        };
        gather_rows(self.samples, pixels, image)
    }

    // Puts a row of a band. It is cut where runs end.
    fn line(&self, piece: Piece, image: &mut [u8])
        requires image_holds { ImageHolds self.now image.old }
        requires moves { Moves self.now Way.Runs piece }
        ensures { HasPut self.now (InPiece piece) image.old image.new }
    {
        let row = RowRuns {
            layout: self.layout,
            b: piece.bands.from,
            r: piece.rows.from,
            c: piece.columns.from,
            count: piece.columns.count,
        };
        let from = self.planes.at(row.b, row.r, row.c);
        put_row(image, row, self.samples, from)
    }

    // Puts the samples of a piece.
    fn piece(&self, way: Way, piece: Piece, image: &mut [u8])
        requires image_holds { ImageHolds self.now image.old }
        requires moves { Moves self.now way piece }
        requires bytes { Bytes image.old }
        ensures { HasPut self.now (InPiece piece) image.old image.new }
    {
        match way {
            Way::Rows => self.rows(piece, image),
            Way::Pixels => self.pixels(piece, image),
            Way::Runs => self.line(piece, image),
        }
    }

    // The same piece by piece. Each way has a loop of its own: where the loop asks for the way, it is slower.
    #[inline(always)]
    fn pieces(&self, way: Way, order: Order, area: Area, image: &mut [u8])
        requires image_holds { ImageHolds self.now image.old }
        requires moves { AreaMoves self.now.layout self.now.layout.bands self.now.layout.rows
            self.now.layout.columns order area }
        requires way_is { order.way ≡ way }
        ensures { HasPut self.now (InArea area) image.old image.new }
    {
        // by number: the parts stand in no array
        for p in 0..order.bands.parts {
            self.piece(way, order.piece(area, p), image);
        }
    }

    // Puts the samples of an area, of each band.
    fn area(&self, order: Order, area: Area, image: &mut [u8])
        requires image_holds { ImageHolds self.now image.old }
        requires moves { AreaMoves self.now.layout self.now.layout.bands self.now.layout.rows
            self.now.layout.columns order area }
        ensures { HasPut self.now (InArea area) image.old image.new }
    {
        match order.way {
            Way::Rows => self.pieces(Way::Rows, order, area, image),
            Way::Pixels => self.pieces(Way::Pixels, order, area, image),
            Way::Runs => self.pieces(Way::Runs, order, area, image),
        }
    }

    // Puts all samples of the block, area by area.
    pub fn all(&self, image: &mut [u8])
        requires image_holds { ImageHolds self.now image.old }
        ensures { image.new ≡ put_all_of self.now image.old }
    {
        let layout = self.layout;
        let order = choose(
            layout,
            STORED_AT_ONCE,
            layout.bands as usize,
            layout.rows,
            layout.columns,
        );
        let mut area = order.first_area();
        // each from the one before: `successors` is no plainer
        for k in 0..order.areas() {
            self.area(order, area, image);
            area = order.next_area(area);
        }
    }
}
