// A part of a block that is read into an answer of several rows and columns a band, piece by piece. The room in the
// answer stands in contracts, since it is lent for each piece.
ghost use Rattle.std.specs.Prelude.{◌≡◌, ◌<◌, length};
ghost use Rattle.bits.specs.Bits.{Bytes};
ghost use Rattle.layout.specs.Bands.{bands_in, band_count};
ghost use Rattle.layout.specs.Internal.Layout.{sample_bytes};
ghost use Rattle.moves.specs.Internal.Parts.{Readable, answer_bytes};
ghost use Rattle.moves.specs.Internal.Spacings.{image_spacing, plane_spacing};

use crate::order::{Area, Order, Piece, Way, choose, listed_together};
use crate::part::Part;
use crate::runs::{RowRuns, read_row};
use crate::spacing::Spacing;
use layout::BlockLayout;
use layout::bands::{band_at, band_count};
use rows::listed::gather_listed;
use rows::read_rows;
use rows::rows::Rows;
use samples::row::{ByteRow, Row};

#[derive(Clone, Copy)]
pub struct PartRead<'a> {
    pub src: &'a [u8],
    pub layout: BlockLayout,
    pub asked: Option<&'a [u32]>,
    pub part: Part,
    // The rows and columns of a plane of the answer.
    pub rows: usize,
    pub columns: usize,
    // Where the samples of the part lie: in `src` in bits, where the layout has strides, and in the answer in bytes.
    pub places: Spacing,
    pub planes: Spacing,
    // what the slice's type says, for proofs that see it only through the struct
    ghost bytes: { Bytes src.now },
    ghost some_bands: { 0 < band_count layout.bands (bands_in asked) },
    ghost readable: { Readable layout (length src.now) part (bands_in asked) rows columns
        (answer_bytes layout (bands_in asked) rows columns) },
    ghost places_are: { places ≡ image_spacing layout part },
    ghost planes_are: { planes ≡ plane_spacing part rows columns (sample_bytes layout) },
}

impl PartRead<'_> {
    ghost use Rattle.moves.specs.Internal.PartReads.{HasRead, RoomIn, Moves, MovesArea, read_all};
    ghost use Rattle.moves.specs.Internal.Orders.{InPiece, InArea};

    // Rows of one of the bands asked for go to their places in `out`. The samples of a row stand evenly.
    #[inline(always)]
    fn rows(&self, piece: Piece, out: &mut [u8])
        requires room { RoomIn self.now out.old }
        requires moves { Moves self.now Way.Rows piece }
        ensures { HasRead self.now (InPiece piece) out.old out.new }
    {
        let k = piece.bands.from;
        let row = piece.rows.from;
        let column = piece.columns.from;
        let b = band_at(self.layout.bands, self.asked, k);
        let at = self.places.at(b, row, column);
        let to = self.planes.at(k, row, column);
        let first = Row {
            at,
            step: self.places.column,
            width: self.layout.nbpp as usize,
            size: self.planes.column,
            count: piece.columns.count,
            data_at: to,
        };
        let rows = Rows {
            first,
            count: piece.rows.count,
            apart: self.places.row,
            data_apart: self.planes.row,
        };
        read_rows(self.src, rows, out)
    }

    // A row of all listed bands goes to its places in `out`, pixel by pixel.
    fn pixels(&self, piece: Piece, out: &mut [u8])
        requires room { RoomIn self.now out.old }
        requires moves { Moves self.now Way.Pixels piece }
        ensures { HasRead self.now (InPiece piece) out.old out.new }
    {
        let list = self.asked.unwrap();
        let row = piece.rows.from;
        let column = piece.columns.from;
        let at = self.places.at(0, row, column);
        let to = self.planes.at(piece.bands.from, row, column);
        let pixels = ByteRow {
            at: at / 8,
            step: self.places.column / 8,
            size: self.planes.column,
            count: piece.columns.count,
            data_at: to,
        };
        gather_listed(self.src, pixels, list, out, self.planes.band)
    }

    // A row of one of the bands asked for goes to its places in `out`. It is cut where runs end.
    fn line(&self, piece: Piece, out: &mut [u8])
        requires room { RoomIn self.now out.old }
        requires moves { Moves self.now Way.Runs piece }
        ensures { HasRead self.now (InPiece piece) out.old out.new }
    {
        let k = piece.bands.from;
        let row = piece.rows.from;
        let column = piece.columns.from;
        let b = band_at(self.layout.bands, self.asked, k);
        let to = self.planes.at(k, row, column);
        let samples = RowRuns {
            layout: self.layout,
            b,
            r: self.part.r + row,
            c: self.part.c + column,
            count: piece.columns.count,
        };
        read_row(self.src, samples, out, to)
    }

    // The samples of a piece go to their places in `out`.
    #[inline(always)]
    fn piece(&self, way: Way, piece: Piece, out: &mut [u8])
        requires room { RoomIn self.now out.old }
        requires moves { Moves self.now way piece }
        ensures { HasRead self.now (InPiece piece) out.old out.new }
    {
        match way {
            Way::Rows => self.rows(piece, out),
            Way::Pixels => self.pixels(piece, out),
            Way::Runs => self.line(piece, out),
        }
    }

    // The same piece by piece. Each way has a loop of its own: where the loop asks for the way, it is slower.
    #[inline(always)]
    fn pieces(&self, way: Way, order: Order, area: Area, out: &mut [u8])
        requires room { RoomIn self.now out.old }
        requires moves { MovesArea self.now order area }
        requires way_is { order.way ≡ way }
        ensures { HasRead self.now (InArea area) out.old out.new }
    {
        // by number: the parts stand in no array
        for p in 0..order.bands.parts {
            self.piece(way, order.piece(area, p), out);
        }
    }

    // The samples of an area, of each band asked for, go to their places in `out`.
    fn area(&self, order: Order, area: Area, out: &mut [u8])
        requires room { RoomIn self.now out.old }
        requires moves { MovesArea self.now order area }
        ensures { HasRead self.now (InArea area) out.old out.new }
    {
        match order.way {
            Way::Rows => self.pieces(Way::Rows, order, area, out),
            Way::Pixels => self.pieces(Way::Pixels, order, area, out),
            Way::Runs => self.pieces(Way::Runs, order, area, out),
        }
    }

    // All samples of the part, area by area.
    pub fn all(&self, out: &mut [u8])
        requires room { RoomIn self.now out.old }
        ensures { out.new ≡ read_all self.now out.old }
    {
        let bands = band_count(self.layout.bands, self.asked);
        let order = choose(
            self.layout,
            listed_together(self.asked),
            bands,
            self.part.rows,
            self.part.columns,
        );
        let mut area = order.first_area();
        // each from the one before: `successors` is no plainer
        for k in 0..order.areas() {
            self.area(order, area, out);
            area = order.next_area(area);
        }
    }
}
