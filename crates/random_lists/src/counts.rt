// The counts of calls, by kind.
use refusals::Refusal;
use std::fmt;

// The accepted and the refused calls of a kind, and those that are refused with 2.
#[derive(Clone, Copy, Default)]
pub struct Tally {
    accepted: usize,
    refused: usize,
    barred: usize,
}

impl Tally {
    // One call more.
    pub fn add<T: Drop>(&mut self, answer: Result<T, Refusal>) {
        match answer {
            Ok(_) => self.accepted = self.accepted.saturating_add(1),
            Err(refusal) => self.refuse(refusal),
        }
    }

    fn refuse(&mut self, refusal: Refusal) {
        self.refused = self.refused.saturating_add(1);
        if refusal == Refusal::Width {
            self.barred = self.barred.saturating_add(1);
        }
    }
}

#[derive(Clone, Copy, Default)]
pub struct Counts {
    pub starts: Tally,
    pub writes: Tally,
    // The writes that are refused with 26.
    pub unfit: usize,
    pub skips: Tally,
    pub progresses: Tally,
    pub finishes: Tally,
    pub relays: Tally,
    // The windows on the whole image, and on a part of it.
    pub windows: Tally,
    pub parts: Tally,
    pub differences: usize,
}

impl Counts {
    pub fn differ(&mut self, n: usize) {
        self.differences = self.differences.saturating_add(n);
    }

    // A difference, unless the answer is the plain frame's: the same value, or the same refusal.
    pub fn compare<T: PartialEq + Drop>(
        &mut self,
        a: Result<T, Refusal>,
        plain: Result<T, Refusal>,
    ) {
        if a != plain {
            self.differ(1);
        }
    }
}

fn write_tally<W: fmt::Write>(f: &mut fmt::Formatter<W>, calls: &str, t: Tally) -> fmt::Result {
    writeln!(f, "{calls} accepted {}", t.accepted)?;
    writeln!(f, "{calls} refused {}", t.refused)?;
    writeln!(f, "of these with 2 {}", t.barred)
}

impl fmt::Display for Counts {
    fn fmt<W: fmt::Write>(&self, f: &mut fmt::Formatter<W>) -> fmt::Result {
        write_tally(f, "starts", self.starts)?;
        write_tally(f, "writes", self.writes)?;
        writeln!(f, "of these with 26 {}", self.unfit)?;
        write_tally(f, "skips", self.skips)?;
        write_tally(f, "progress calls", self.progresses)?;
        write_tally(f, "finishes", self.finishes)?;
        write_tally(f, "re-lays", self.relays)?;
        write_tally(f, "windows", self.windows)?;
        write_tally(f, "windows on a part", self.parts)?;
        write!(f, "differences {}", self.differences)
    }
}
