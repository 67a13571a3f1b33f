// A row of samples: where they lie in an image, and where they stand side by side in lent data. Whether buffers hold
// them stands in contracts: a row is known before its two buffers, and one loop takes a row out of either.
ghost use Rattle.std.specs.Prelude.{◌≡◌, ◌+◌, ◌-◌, ◌*◌, ◌%◌, ◌^◌, ◌≤◌, ◌<◌};

// Samples of any width: evenly spaced bits of an image.
#[derive(Clone, Copy)]
pub struct Row {
    // The first bit in the image, and the bits from a sample to the next.
    pub at: usize,
    pub step: usize,
    // Bits of a sample in the image, and its big-endian bytes in the data.
    pub width: usize,
    pub size: usize,
    // How many samples.
    pub count: usize,
    // The index of the first in the data.
    pub data_at: usize,
    pub ghost size_fits: { size ≤ 8 },
    pub ghost width_fits: { width ≤ 8 * size },
    pub ghost bits_counted: { at + count * step + width < 2 ^ 63 },
    pub ghost bytes_counted: { data_at + count * size < 2 ^ 64 },
}

// Samples of whole bytes: evenly spaced bytes of an image.
#[derive(Clone, Copy)]
pub struct ByteRow {
    // The first byte in the image, and the bytes from a sample to the next.
    pub at: usize,
    pub step: usize,
    // Bytes of a sample.
    pub size: usize,
    // How many samples.
    pub count: usize,
    // The index of the first in the data.
    pub data_at: usize,
    pub ghost size_fits: { size ≤ 8 },
}

impl Row {
    ghost use Rattle.samples.specs.Internal.Row.{First, Rest, BytesOf};

    // The first n samples.
    pub fn first(self, n: usize) -> Row
        requires { n ≤ self.count }
        ensures { First self n result }
    {
        Row {
            at: self.at,
            step: self.step,
            width: self.width,
            size: self.size,
            count: n,
            data_at: self.data_at,
        }
    }

    // The samples after the first n.
    pub fn skip(self, n: usize) -> Row
        requires { n ≤ self.count }
        ensures { Rest self n result }
    {
        Row {
            at: self.at + n * self.step,
            step: self.step,
            width: self.width,
            size: self.size,
            count: self.count - n,
            data_at: self.data_at + n * self.size,
        }
    }

    // The same with `size`, which is its own: a literal is then known to the loop it goes to.
    pub fn of_size(self, size: usize) -> Row
        requires { size ≡ self.size }
        ensures { result ≡ self }
    {
        Row {
            at: self.at,
            step: self.step,
            width: self.width,
            size,
            count: self.count,
            data_at: self.data_at,
        }
    }

    // Samples that fill their bytes and start at whole bytes, counted in bytes.
    pub fn bytes(self) -> ByteRow
        ensures { BytesOf self result }
    {
        ByteRow {
            at: self.at / 8,
            step: self.step / 8,
            size: self.size,
            count: self.count,
            data_at: self.data_at,
        }
    }
}

impl ByteRow {
    // The same with `size`, which is its own: a literal is then known to the loop it goes to.
    pub fn of_size(self, size: usize) -> ByteRow
        requires { size ≡ self.size }
        ensures { result ≡ self }
    {
        ByteRow {
            at: self.at,
            step: self.step,
            size,
            count: self.count,
            data_at: self.data_at,
        }
    }
}
