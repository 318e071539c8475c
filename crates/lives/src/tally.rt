// How many cases were tried, and how many came out otherwise.
use refusal::{HandedBack, Refusal};
use screen::FlushFault;
use std::fmt;

// What a call is refused with has a number.
pub trait Numbered: Drop {
    fn told(&self) -> u8;
}

impl Numbered for Refusal {
    fn told(&self) -> u8 {
        self.number()
    }
}

impl<T: Drop> Numbered for HandedBack<T> {
    fn told(&self) -> u8 {
        self.refusal.number()
    }
}

impl Numbered for FlushFault {
    fn told(&self) -> u8 {
        self.number()
    }
}

#[derive(Clone, Copy, Default)]
pub struct Tally {
    tried: u32,
    differ: u32,
    // the first that differs, counted from 0
    first: Option<u32>,
}

impl Tally {
    // One case, and whether it came out as it should.
    pub fn case(&mut self, agrees: bool) {
        if !agrees {
            self.differ = self.differ.saturating_add(1);
            self.first = self.first.or(Some(self.tried));
        }
        self.tried = self.tried.saturating_add(1);
    }

    // A call that should be refused with a number, or accepted where that is 0.
    pub fn number<T: Drop, E: Numbered>(&mut self, answer: Result<T, E>, wanted: u8) {
        let got = answer.map_or_else(|refused| refused.told(), |_| 0);
        self.case(got == wanted);
    }
}

impl fmt::Display for Tally {
    fn fmt<W: fmt::Write>(&self, f: &mut fmt::Formatter<W>) -> fmt::Result {
        write!(f, "{} cases, {} differ", self.tried, self.differ)?;
        if let Some(first) = self.first {
            write!(f, ", the first is {first}")?;
        }
        Ok(())
    }
}
