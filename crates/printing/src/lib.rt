// What the programs print: bytes, and what a read answers. What takes several lines, or reads files, is a function with
// the handle, as `main` has it: Display has no handle.
#![tactic(auto)]

use calls::{Extent, Shape};
use refusals::Refusal;
use std::fmt;

// Each byte in two hexadecimal digits.
#[derive(Clone, Copy)]
pub struct Hex<'a>(pub &'a [u8]);

impl<'a> fmt::Display for Hex<'a> {
    fn fmt<W: fmt::Write>(&self, f: &mut fmt::Formatter<W>) -> fmt::Result {
        for byte in self.0 {
            write!(f, "{byte:02x}")?;
        }
        Ok(())
    }
}

// What a read answers, and the whole of its output: the number and the extent, zeros beside a refusal, then the bytes.
#[derive(Clone, Copy)]
pub struct ReadAnswer<'a> {
    pub read: Result<Extent, Refusal>,
    pub out: &'a [u8],
}

impl<'a> fmt::Display for ReadAnswer<'a> {
    fn fmt<W: fmt::Write>(&self, f: &mut fmt::Formatter<W>) -> fmt::Result {
        let shape = Shape::from(self.read);
        write!(
            f,
            "{} {} {} {} {}",
            shape.number,
            shape.bands,
            shape.rows,
            shape.columns,
            Hex(self.out)
        )
    }
}
