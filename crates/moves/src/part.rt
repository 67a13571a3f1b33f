// A part of a block, read into an answer of several rows and columns a band.
ghost use Rattle.std.specs.Prelude.{◌≡◌, length};
ghost use Rattle.common.specs.Over.{over};
ghost use Rattle.layout.specs.Bands.{bands_in};
ghost use Rattle.moves.specs.Internal.Parts.{Readable, part_read, PlanesReadable, planes_of, whole_part};

use crate::part_read::PartRead;
use crate::spacing::Spacing;
use layout::BlockLayout;
use layout::bands::band_count;

// `rows` rows of `columns` samples of a block, from its sample (r, c) on, and the row and column of the answer that
// they go to.
#[derive(Clone, Copy)]
pub struct Part {
    pub r: usize,
    pub c: usize,
    pub rows: usize,
    pub columns: usize,
    pub to_row: usize,
    pub to_column: usize,
}

// A block of so many rows and columns, whole.
pub fn whole_part(rows: usize, columns: usize) -> Part
    ensures { result ≡ whole_part rows columns }
{
    Part {
        r: 0,
        c: 0,
        rows,
        columns,
        to_row: 0,
        to_column: 0,
    }
}

// The samples of a part of a block go to their places in `out`, which holds `rows` rows of `columns` samples for each
// band asked for.
pub fn read_part(
    src: &[u8],
    layout: BlockLayout,
    part: Part,
    asked: Option<&[u32]>,
    rows: usize,
    columns: usize,
    out: &mut [u8],
)
    requires { Readable layout (length src.now) part (bands_in asked) rows columns (length out.old) }
    ensures { out.new ≡ part_read layout src.now part (bands_in asked.entry) rows columns out.old }
{
    // where no band is asked for, `rows` and `columns` may be any numbers
    if band_count(layout.bands, asked) == 0 {
        return;
    }
    let read = PartRead {
        src,
        layout,
        asked,
        part,
        rows,
        columns,
        places: Spacing::in_image(layout, part),
        planes: Spacing::in_planes(part, rows, columns, layout.sample_bytes()),
    };
    read.all(out)
}

// The planes of the bands asked for go to the front of `out`.
pub fn read_planes(src: &[u8], layout: BlockLayout, asked: Option<&[u32]>, out: &mut [u8])
    requires { PlanesReadable layout (length src.now) (bands_in asked) (length out.old) }
    ensures { out.new ≡ over out.old 0 (planes_of layout src.now (bands_in asked.entry)) }
{
    let part = whole_part(layout.rows, layout.columns);
    read_part(src, layout, part, asked, layout.rows, layout.columns, out)
}
