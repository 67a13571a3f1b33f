// Several rows of samples: where they lie in an image, and where they stand in lent data. Whether buffers hold them
// stands in contracts, as for a row.
ghost use Rattle.std.specs.Prelude.{◌≡◌, ◌+◌, ◌*◌, ◌^◌, ◌<◌, IfSome};

use samples::row::{ByteRow, Row};

// Rows of as many samples each, evenly apart.
#[derive(Clone, Copy)]
pub struct Rows {
    pub first: Row,
    // How many rows.
    pub count: usize,
    // From a row to the next: bits in the image, and bytes in the data.
    pub apart: usize,
    pub data_apart: usize,
    pub ghost some: { 0 < count },
    pub ghost bits_counted: { first.at + count * apart + first.count * first.step + first.width < 2 ^ 63 + apart },
    pub ghost bytes_counted: { first.data_at + count * data_apart + first.count * first.size < 2 ^ 64 + data_apart },
}

// The same of samples of whole bytes, all in bytes.
#[derive(Clone, Copy)]
pub struct ByteRows {
    pub first: ByteRow,
    // How many rows.
    pub count: usize,
    // From a row to the next: bytes in the image, and bytes in the data.
    pub apart: usize,
    pub data_apart: usize,
}

impl Rows {
    ghost use Rattle.rows.specs.Internal.Places.{RowOf, OneRow, BytesOfRows};

    // Row i. Loops go by number, since rows and pixels stand in no array.
    pub fn row(self, i: usize) -> Row
        requires { i < self.count }
        ensures { RowOf self i result }
    {
        let first = self.first;
        Row {
            at: first.at + i * self.apart,
            step: first.step,
            width: first.width,
            size: first.size,
            count: first.count,
            data_at: first.data_at + i * self.data_apart,
        }
    }

    // All samples as one row, where the rows follow each other on both sides. Of samples of no bytes there may be too
    // many to count.
    pub fn as_one(self) -> Option<Row>
        ensures { IfSome result (OneRow self) }
    {
        let first = self.first;
        if first.size > 0
            && self.apart == first.count * first.step
            && self.data_apart == first.count * first.size
        {
            Some(Row {
                at: first.at,
                step: first.step,
                width: first.width,
                size: first.size,
                count: self.count * first.count,
                data_at: first.data_at,
            })
        } else {
            None
        }
    }

    // Rows of samples that fill their bytes and start at whole bytes, counted in bytes.
    pub fn bytes(self) -> ByteRows
        ensures { BytesOfRows self result }
    {
        ByteRows {
            first: self.first.bytes(),
            count: self.count,
            apart: self.apart / 8,
            data_apart: self.data_apart,
        }
    }
}

impl ByteRows {
    ghost use Rattle.rows.specs.Internal.Places.{ByteRowOf, Turned};

    // Row i.
    pub fn row(self, i: usize) -> ByteRow
        requires { (self.first.at + i * self.apart < 2 ^ 64) × (self.first.data_at + i * self.data_apart < 2 ^ 64) }
        ensures { ByteRowOf self i result }
    {
        let first = self.first;
        ByteRow {
            at: first.at + i * self.apart,
            step: first.step,
            size: first.size,
            count: first.count,
            data_at: first.data_at + i * self.data_apart,
        }
    }

    // The same with `size`, which is their own: a literal is then known to the loop they go to.
    pub fn of_size(self, size: usize) -> ByteRows
        requires { size ≡ self.first.size }
        ensures { result ≡ self }
    {
        ByteRows {
            first: self.first.of_size(size),
            ..self
        }
    }

    // Samples that stand side by side on both sides: the other way round, out of the data into the image.
    pub fn turned(self) -> ByteRows
        ensures { Turned self result }
    {
        let first = self.first;
        ByteRows {
            first: ByteRow {
                at: first.data_at,
                step: first.size,
                size: first.size,
                count: first.count,
                data_at: first.at,
            },
            count: self.count,
            apart: self.data_apart,
            data_apart: self.apart,
        }
    }
}

#[cfg(test)]
mod tests {
    use super::*;

    #[test]
    fn rows_of_whole_bytes(rt: HostRuntime) {
        let first = ByteRow {
            at: 5,
            step: 4,
            size: 2,
            count: 3,
            data_at: 7,
        };
        let rows = ByteRows {
            first,
            count: 3,
            apart: 100,
            data_apart: 6,
        };
        for (i, at, data_at) in [(0, 5, 7), (1, 105, 13), (2, 205, 19)] {
            let row = rows.row(i);
            assert_eq!(rt; [row.at, row.data_at], [at, data_at], "of row {i}");
            assert_eq!(rt; [row.step, row.size, row.count], [4, 2, 3], "of row {i}");
        }
    }
}
