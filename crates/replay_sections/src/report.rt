// What is counted, and the report.
use std::{fmt, io};

// The numbers of answers.
const ANSWERS: usize = 10;

#[derive(Drop)]
pub(crate) struct Counts {
    // where differences are reported
    pub(crate) out: HostRuntime,
    pub(crate) cases: u64,
    pub(crate) records: u64,
    // of the answers with each number
    pub(crate) answers: [u64; ANSWERS],
    pub(crate) in_section: u64,
    pub(crate) decoded: u64,
    pub(crate) replaced: usize,
    pub(crate) differences: u64,
}

impl Counts {
    pub(crate) fn new(out: HostRuntime) -> Counts {
        Counts {
            out,
            cases: 0,
            records: 0,
            answers: [0; ANSWERS],
            in_section: 0,
            decoded: 0,
            replaced: 0,
            differences: 0,
        }
    }

    // Counts a case whose answer has this number. False where no answer has it.
    pub(crate) fn case(&mut self, number: usize) -> bool {
        let Some(answers) = self.answers.get_mut(number) else {
            return false;
        };
        *answers = answers.wrapping_add(1);
        self.cases = self.cases.wrapping_add(1);
        true
    }

    // Counts and reports a difference in the present case, unless it is right.
    pub(crate) fn note(&mut self, right: bool, what: &str) -> io::Result<()> {
        if right {
            return Ok(());
        }
        self.differences = self.differences.wrapping_add(1);
        println!(self.out; "case {}: difference in {what}", self.cases)
    }
}

impl fmt::Display for Counts {
    fn fmt<W: fmt::Write>(&self, f: &mut fmt::Formatter<W>) -> fmt::Result {
        writeln!(f, "cases {}, of these {} records", self.cases, self.records)?;
        for (number, n) in self.answers.iter().enumerate() {
            writeln!(f, "answer {number}: {n}")?;
        }
        writeln!(
            f,
            "texts {} in the section, {} decoded, replaced {}",
            self.in_section, self.decoded, self.replaced
        )?;
        writeln!(f, "differences {}", self.differences)
    }
}
