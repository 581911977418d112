// How far the program is, and what it prints on the way.
use crate::compare::Difference;
use std::io;
use std::io::Write;

// An output of which every piece is tried, whatever came of those before it; the first failure is kept. All that is printed goes by
// `write_all`.
#[derive(Drop)]
pub struct Output<'a, W> {
    pub out: &'a mut W,
    pub written: io::Result<()>,
}

impl<W: Write> Write for Output<'_, W> {
    fn write(&mut self, bytes: &[u8]) -> io::Result<usize> {
        self.out.write(bytes)
    }

    fn flush(&mut self) -> io::Result<()> {
        self.out.flush()
    }

    fn write_all(&mut self, bytes: &[u8]) -> io::Result<()> {
        let told = self.out.write_all(bytes);
        if self.written.is_ok() {
            self.written = told;
        }
        Ok(())
    }
}

// Vectors that ran, and those of them that came out as expected.
#[derive(Clone, Copy)]
struct Counts {
    ran: u64,
    agreed: u64,
}

const NONE: Counts = Counts { ran: 0, agreed: 0 };

impl Counts {
    fn add(&mut self, agreed: bool) {
        self.ran = self.ran.saturating_add(1);
        self.agreed = self.agreed.saturating_add(u64::from(agreed));
    }

    fn tell<W: Write>(self, out: &mut W, before: &str) -> io::Result<()> {
        let Counts { ran, agreed } = self;
        writeln!(out, "{before}{ran} ran, {agreed} as expected")
    }
}

#[derive(Clone, Copy)]
pub struct Progress {
    // under the last heading
    here: Counts,
    all: Counts,
    // the number of the line at hand
    line: u64,
}

impl Progress {
    pub fn new() -> Progress {
        Progress {
            here: NONE,
            all: NONE,
            line: 0,
        }
    }

    pub fn next_line(&mut self) {
        self.line = self.line.saturating_add(1);
    }

    // The counts of the heading before it, if any vector has run, and the heading's line.
    pub fn heading<W: Write>(&mut self, out: &mut W, line: &[u8]) -> io::Result<()> {
        if 0 < self.all.ran {
            self.here.tell(out, "  ")?;
        }
        self.here = NONE;
        out.write_all(line)?;
        out.write_all(b"\n")
    }

    // A vector that ran, and a line for one that did not come out as expected.
    pub fn vector<W: Write>(
        &mut self,
        out: &mut W,
        found: Result<(), Difference>,
    ) -> io::Result<()> {
        self.here.add(found.is_ok());
        self.all.add(found.is_ok());
        if let Err(difference) = found {
            let line = self.line;
            write!(out, "  line {line}{difference}")?;
        }
        Ok(())
    }

    // The closing lines.
    pub fn finish<W: Write>(self, out: &mut W) -> io::Result<()> {
        if self.all.ran == 0 {
            return writeln!(out, "There are no vectors.");
        }
        self.here.tell(out, "  ")?;
        self.all.tell(out, "All: ")?;
        if self.all.ran == self.all.agreed {
            writeln!(out, "All as expected.")
        } else {
            writeln!(out, "NOT ALL AS EXPECTED.")
        }
    }
}
