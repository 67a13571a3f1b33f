// Where samples that stand evenly lie, in an image and in planes.
ghost use Rattle.std.specs.Prelude.{◌≡◌, ◌^◌, ◌<◌};
ghost use Rattle.layout.specs.Internal.Layout.{Sample, Sound};
ghost use Rattle.moves.specs.Internal.Spacings.{spaced_at, image_spacing, plane_spacing, PlanesFit};

use crate::part::Part;
use layout::BlockLayout;

// The place of the first sample, and how far it is from a band, a row and a column to the next: bits of an image, or
// bytes of planes.
#[derive(Clone, Copy)]
pub struct Spacing {
    pub first: usize,
    pub band: usize,
    pub row: usize,
    pub column: usize,
}

impl Spacing {
    // The samples of a part in an image, in bits. It holds where the layout has strides.
    pub fn in_image(layout: BlockLayout, part: Part) -> Spacing
        requires sound { Sound layout }
        requires sample { Sample layout 0 part.r part.c }
        ensures { result ≡ image_spacing layout part }
    {
        let by = layout.strides();
        Spacing {
            first: layout.sample_place(0, part.r, part.c),
            band: by.band,
            row: by.row,
            column: by.column,
        }
    }

    // The samples of a part in planes of so many rows and columns of samples of `size` bytes.
    pub fn in_planes(part: Part, rows: usize, columns: usize, size: usize) -> Spacing
        requires { PlanesFit part rows columns size }
        ensures { result ≡ plane_spacing part rows columns size }
    {
        Spacing {
            first: (part.to_row * columns + part.to_column) * size,
            band: rows * columns * size,
            row: columns * size,
            column: size,
        }
    }

    // The place of sample (b, r, c).
    pub fn at(self, b: usize, r: usize, c: usize) -> usize
        requires { spaced_at self b r c < 2 ^ 64 }
        ensures { result ≡ spaced_at self b r c }
    {
        self.first + b * self.band + r * self.row + c * self.column
    }
}
