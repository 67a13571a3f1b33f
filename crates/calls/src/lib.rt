// What the calls on an image answer. specs/ defines the calls; the crates above it do what these say.
#![tactic(auto)]

ghost use Rattle.std.specs.Prelude.{◌≡◌};
ghost use Rattle.calls.specs.Results.{shape_of, refused_answer, answer_of, progress_of};

use refusals::Refusal;

// What a read filled: so many bands of so many rows and columns.
#[derive(Clone, Copy, Debug, PartialEq, Eq)]
pub struct Extent {
    pub bands: usize,
    pub rows: usize,
    pub columns: usize,
}

// What C is answered by a read: the number, and the extent of what it filled; zeros beside a refusal.
#[repr(C)]
#[derive(Clone, Copy)]
pub struct Shape {
    pub number: u32,
    pub bands: usize,
    pub rows: usize,
    pub columns: usize,
}

// What C is answered by another call: the number and the two values beside it, which are zeros where the call has none.
// Progress has its count first; finish has, beside 15, the block's row first and its column second.
#[repr(C)]
#[derive(Clone, Copy)]
pub struct Answer {
    pub number: u32,
    pub first: usize,
    pub second: usize,
}

impl From<Result<Extent, Refusal>> for Shape {
    ghost from_gives = { λ read shape. shape ≡ shape_of read };

    fn from(read: Result<Extent, Refusal>) -> Self {
        match read {
            Ok(extent) => Shape {
                number: 0,
                bands: extent.bands,
                rows: extent.rows,
                columns: extent.columns,
            },
            Err(refusal) => Shape {
                number: refusal.number(),
                bands: 0,
                rows: 0,
                columns: 0,
            },
        }
    }
}

impl From<Refusal> for Answer {
    ghost from_gives = { λ refusal answer. answer ≡ refused_answer refusal };

    fn from(refusal: Refusal) -> Self {
        let number = refusal.number();
        match refusal {
            Refusal::UnmarkedBlock { row, column } => Answer {
                number,
                first: row,
                second: column,
            },
            _ => Answer {
                number,
                first: 0,
                second: 0,
            },
        }
    }
}

impl From<Result<(), Refusal>> for Answer {
    ghost from_gives = { λ done answer. answer ≡ answer_of done };

    fn from(done: Result<(), Refusal>) -> Self {
        match done {
            Ok(()) => Answer {
                number: 0,
                first: 0,
                second: 0,
            },
            Err(refusal) => Answer::from(refusal),
        }
    }
}

impl From<Result<usize, Refusal>> for Answer {
    ghost from_gives = { λ count answer. answer ≡ progress_of count };

    fn from(count: Result<usize, Refusal>) -> Self {
        match count {
            Ok(first) => Answer {
                number: 0,
                first,
                second: 0,
            },
            Err(refusal) => Answer::from(refusal),
        }
    }
}
