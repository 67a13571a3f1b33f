// Records that belong together over one image and its marks. Each answers whether the call gave what is recorded.
use crate::answers::BEFORE;
use crate::grids::{STANDARD, image_bytes, mark_bytes};
use crate::records::{Fault, Record};
use calls::Extent;

// What the calls before left; at first it holds other bytes than zeros.
#[derive(Drop)]
pub struct Frame {
    image: [u8; 1024],
    marks: [u64; 2],
}

// The marks that are recorded after so many bytes of an image. Where the file ends before they do, there are none.
fn recorded_marks<'a>(r: &Record<'a>, bytes: usize) -> &'a [u8] {
    let after = r.from_output.get(bytes..).unwrap_or_default();
    after.get(..mark_bytes(r.grid)).unwrap_or_default()
}

impl Frame {
    pub fn new() -> Self {
        Frame {
            image: [BEFORE; 1024],
            marks: [u64::MAX; 2],
        }
    }

    pub fn start(&mut self, r: &Record<'_>) -> bool {
        let a = writing::start(&mut self.image, &mut self.marks, r.grid, &STANDARD);
        r.has(a.map(|()| ([], 0)))
    }

    pub fn write(&mut self, r: &Record<'_>) -> Result<bool, Fault> {
        let [row, column, bands, rows, columns] = r.arguments::<5>()?;
        let shape = Extent {
            bands: bands as usize,
            rows: rows as usize,
            columns: columns as usize,
        };
        let a = writing::encode_block(
            &mut self.image,
            &mut self.marks,
            r.grid,
            &STANDARD,
            row,
            column,
            shape,
            r.input,
        );
        Ok(r.has(a.map(|()| ([], 0))))
    }

    pub fn skip(&mut self, r: &Record<'_>) -> Result<bool, Fault> {
        let [row, column] = r.arguments::<2>()?;
        let a = writing::skip_block(&self.image, &mut self.marks, r.grid, &STANDARD, row, column);
        Ok(r.has(a.map(|()| ([], 0))))
    }

    pub fn progress(&self, r: &Record<'_>) -> bool {
        r.has(writing::progress(&self.marks, r.grid, &STANDARD).map(|count| ([count], 0)))
    }

    // Beside an accepted finish the record has zeros.
    pub fn finish(&self, r: &Record<'_>) -> bool {
        let a = writing::finalize(&self.image, &self.marks, r.grid, &STANDARD);
        r.has(a.map(|()| ([0, 0], 0)))
    }

    // The image and at most two words of marks, as the calls left them. A longer image than this one is not looked at.
    pub fn contents(&self, r: &Record<'_>) -> bool {
        let bytes = image_bytes(r.grid);
        let left = self.image.get(..bytes).unwrap_or_default();
        let marks = recorded_marks(r, bytes);
        let (recorded, _) = marks.as_chunks::<8>();
        r.has(Ok(([], left.len().saturating_add(mark_bytes(r.grid)))))
            && r.output.starts_with(left)
            && self
                .marks
                .iter()
                .zip(recorded)
                .all(|(m, bytes)| *m == u64::from_be_bytes(*bytes))
    }
}
