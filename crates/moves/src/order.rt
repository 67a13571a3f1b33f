// The order in which the samples of a part are moved: piece by piece, so that the lines of the cache that a piece
// touches are used again soon.
ghost use Rattle.std.specs.Prelude.{◌≡◌, true, false, ◌+◌, ◌*◌, ◌%◌, ◌^◌, ◌≤◌, ◌<◌, length};
ghost use Rattle.layout.specs.Bands.{bands_in};
ghost use Rattle.layout.specs.Internal.Layout.{Sound};
ghost use Rattle.moves.specs.Internal.Orders.{cut_into, part_of, next_part, area_count, area_of};
ghost use Rattle.moves.specs.Internal.Orders.{next_area, AreaIn, piece_of, Chosen};

use common::{min, pick};
use layout::{BlockLayout, Strides};

// The bits of a line of the cache.
const CACHE_LINE: usize = 512;
// The bits of the image that a piece spans where bands alternate: they stay in the cache until the last band is moved.
const PIECE: usize = 65_536;
// Rows of few bands that alternate are moved as many at a time as have these bits: a piece costs as much as they do.
const SHORT_ROWS: usize = 8_192;
// The rows of more bands than these that alternate are moved so many at a time.
const FEW_BANDS: usize = 16;

const ROWS_AT_ONCE: usize = 8;
// So many listed bands at most are read pixel by pixel, and so many bands at a time are stored so.
const LISTED_AT_ONCE: usize = 8;

pub const STORED_AT_ONCE: usize = 10;

// How the samples of a piece are moved.
#[derive(Clone, Copy, Debug, PartialEq, Eq)]
pub enum Way {
    // Rows of one band, in which samples stand evenly.
    Rows,
    // A row of several bands, pixel by pixel.
    Pixels,
    // A row of one band, cut where runs end.
    Runs,
}

// A length cut into parts of at most `most`.
#[derive(Clone, Copy)]
pub struct Cut {
    pub length: usize,
    pub most: usize,
    pub parts: usize,
}

// `count` numbers from `from` on.
#[derive(Clone, Copy)]
pub struct Span {
    pub from: usize,
    pub count: usize,
}

// Some rows and columns of a part.
#[derive(Clone, Copy)]
pub struct Area {
    pub rows: Span,
    pub columns: Span,
}

// Some bands, rows and columns of a part; bands are counted as they are asked for.
#[derive(Clone, Copy)]
pub struct Piece {
    pub bands: Span,
    pub rows: Span,
    pub columns: Span,
}

// All bands, rows and columns of a part, in pieces: area after area, rows outermost, and in each the bands.
#[derive(Clone, Copy)]
pub struct Order {
    pub way: Way,
    pub bands: Cut,
    pub rows: Cut,
    pub columns: Cut,
}

fn cut_into(length: usize, most: usize) -> Cut
    requires { (0 < length) × (0 < most) }
    ensures { result ≡ cut_into length most }
{
    Cut {
        length,
        most,
        parts: (length - 1) / most + 1,
    }
}

impl Cut {
    // Part p of those that the length is cut into.
    fn part(self, p: usize) -> Span
        requires { p * self.most < self.length }
        ensures { result ≡ part_of self p }
    {
        let from = p * self.most;
        Span {
            from,
            count: min(self.most, self.length - from),
        }
    }

    // The part after a part, and after the last the first.
    fn next(self, part: Span) -> Span
        requires { part.from + part.count ≤ self.length }
        ensures { result ≡ next_part self part }
    {
        let end = part.from + part.count;
        let from = pick(end < self.length, end, 0);
        Span {
            from,
            count: min(self.most, self.length - from),
        }
    }
}

impl Order {
    pub fn areas(self) -> usize
        requires { area_count self < 2 ^ 64 }
        ensures { result ≡ area_count self }
    {
        self.rows.parts * self.columns.parts
    }

    pub fn first_area(self) -> Area
        requires { (0 < self.rows.length) × (0 < self.columns.length) }
        ensures { result ≡ area_of self 0 }
    {
        Area {
            rows: self.rows.part(0),
            columns: self.columns.part(0),
        }
    }

    // The area after an area.
    pub fn next_area(self, area: Area) -> Area
        requires { AreaIn self.rows.length self.columns.length area }
        ensures { result ≡ next_area self area }
    {
        let columns = self.columns.next(area.columns);
        let rows = if columns.from > 0 {
            area.rows
        } else {
            self.rows.next(area.rows)
        };
        Area { rows, columns }
    }

    // Part p of the bands, of an area.
    pub fn piece(self, area: Area, p: usize) -> Piece
        requires { p * self.bands.most < self.bands.length }
        ensures { result ≡ piece_of self area p }
    {
        Piece {
            bands: self.bands.part(p),
            rows: area.rows,
            columns: area.columns,
        }
    }
}

// How many listed bands are read pixel by pixel: all where they are few, else none. A number, as `choose` takes one.
pub fn listed_together(asked: Option<&[u32]>) -> usize
    ensures { 0 < result → ((bands_in asked.entry).all ≡ false) × (result ≡ length (bands_in asked.entry).list) }
{
    match asked {
        Some(list) if list.len() <= LISTED_AT_ONCE => list.len(),
        _ => 0,
    }
}

// Is a pixel longer than a line of the cache, with samples of whole bytes side by side?
fn long_pixels(by: Strides, width: usize) -> bool
    ensures { result ≡ true → (by.band ≡ width) × (width % 8 ≡ 0) }
{
    by.column > CACHE_LINE && width % 8 == 0 && by.band == width
}

// How many columns of a band are moved together. Where samples of other bands stand between, in pixels that share
// lines of the cache: those of a piece.
fn columns_together(by: Strides, width: usize, columns: usize) -> usize
    requires { (0 < by.column) × (0 < columns) }
    ensures { 0 < result }
{
    if by.column == width || by.column > CACHE_LINE {
        return columns;
    }
    PIECE / by.column
}

// How many rows of a band are moved together: all where they lie together; where the rows of few bands alternate one,
// as the image lies, or some if they are short, and some where those of many do, so that each band is touched in longer
// runs; else those of a piece.
fn rows_together(by: Strides, width: usize, bands: usize, rows: usize, columns: usize) -> usize
    requires { (0 < by.column) × (0 < rows) × (0 < columns) }
    ensures { 0 < result }
{
    if bands == 1 || by.row <= by.band {
        return rows;
    }
    if by.column == width {
        return if bands > FEW_BANDS {
            ROWS_AT_ONCE
        } else {
            (SHORT_ROWS / by.column / columns).max(1)
        };
    }
    if by.row < PIECE { PIECE / by.row } else { 1 }
}

// The order for so many bands, rows and columns of a part. At most `together` bands are moved pixel by pixel.
pub fn choose(
    layout: BlockLayout,
    together: usize,
    bands: usize,
    rows: usize,
    columns: usize,
) -> Order
    requires sound { Sound layout }
    requires not_empty { (0 < bands) × (0 < rows) × (0 < columns) }
    ensures { Chosen layout together bands rows columns result }
{
    let width = layout.nbpp as usize;
    let by = layout.strides();
    let (way, b, r, c) = if !layout.has_strides() {
        (Way::Runs, 1, 1, columns)
    } else if together > 0 && long_pixels(by, width) {
        (Way::Pixels, together, 1, columns)
    } else {
        let r = rows_together(by, width, bands, rows, columns);
        (Way::Rows, 1, r, columns_together(by, width, columns))
    };
    Order {
        way,
        bands: cut_into(bands, b),
        rows: cut_into(rows, r),
        columns: cut_into(columns, c),
    }
}
