// How many cases were replayed and how many of their answers agree.
ghost use Rattle.std.specs.Prelude.{◌≡◌, ◌+◌, ◌%◌, ◌^◌, if◌then◌else◌};

use std::{fmt, io};

#[derive(Clone, Copy, Default)]
pub(crate) struct Tally {
    pub(crate) cases: u64,
    pub(crate) answers: u64,
    pub(crate) agree: u64,
}

impl Tally {
    // One case more.
    pub(crate) fn begin(&mut self)
        ensures { self.new ≡ record self.old { cases = (self.old.cases + 1) % 2 ^ 64 } }
    {
        self.cases = self.cases.wrapping_add(1);
    }

    // One answer more; one that differs is named by its case.
    pub(crate) fn count(&mut self, rt: &impl Print, same: bool) -> io::Result<()>
        ensures cases { self.new.cases ≡ self.old.cases }
        ensures answers { self.new.answers ≡ (self.old.answers + 1) % 2 ^ 64 }
        ensures agree { self.new.agree ≡ (if same then (self.old.agree + 1) % 2 ^ 64 else self.old.agree) }
    {
        self.answers = self.answers.wrapping_add(1);
        if same {
            self.agree = self.agree.wrapping_add(1);
            return Ok(());
        }
        println!(rt; "differs: case {}, answer {}", self.cases, self.answers)
    }
}

impl fmt::Display for Tally {
    fn fmt<W: fmt::Write>(&self, f: &mut fmt::Formatter<W>) -> fmt::Result {
        let Tally {
            cases,
            answers,
            agree,
        } = *self;
        write!(f, "{cases} cases, {agree} of {answers} answers agree")
    }
}
