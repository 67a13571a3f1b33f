// The counts of records, and the lines that tell of them.
use crate::kinds::Kind;
use std::fmt;

#[derive(Clone, Copy, Default)]
struct Tally {
    equal: u64,
    different: u64,
}

impl Tally {
    fn records(self) -> u64 {
        self.equal.saturating_add(self.different)
    }

    fn add(&mut self, equal: bool) {
        let count = if equal {
            &mut self.equal
        } else {
            &mut self.different
        };
        *count = count.saturating_add(1);
    }
}

#[derive(Clone, Copy, Default)]
pub struct Counts {
    all: Tally,
    kinds: [Tally; 16],
    // The records that are damaged or missing, and bytes after the last one.
    faults: u64,
}

impl Counts {
    // One record more whose answer is equal or not.
    pub fn add(&mut self, kind: Kind, equal: bool) {
        self.all.add(equal);
        self.kinds[kind as usize - 1].add(equal);
    }

    pub fn add_fault(&mut self) {
        self.faults = self.faults.saturating_add(1);
    }

    pub fn differences(&self) -> u64 {
        self.all.different
    }

    pub fn faults(&self) -> u64 {
        self.faults
    }
}

impl fmt::Display for Tally {
    fn fmt<W: fmt::Write>(&self, f: &mut fmt::Formatter<W>) -> fmt::Result {
        let records = self.records();
        write!(
            f,
            "{records} records, {} equal, {} different",
            self.equal, self.different
        )
    }
}

impl fmt::Display for Counts {
    fn fmt<W: fmt::Write>(&self, f: &mut fmt::Formatter<W>) -> fmt::Result {
        for (kind, tally) in Kind::ALL.iter().zip(self.kinds.iter()) {
            writeln!(f, "{kind:<32}{tally}")?;
        }
        let records = self.all.records();
        let different = self.all.different;
        write!(
            f,
            "{records} records, {different} differences, {} faults in the file",
            self.faults
        )
    }
}
