// The number and the words of a flush that is not done.
ghost use Rattle.std.specs.Prelude.{◌≡◌};
ghost use Rattle.screen.specs.Faults.{fault_number};

use crate::answers::{FlushFault, LeftOver};
use std::error::Error;
use std::fmt;

impl FlushFault {
    pub fn number(self) -> u8
        ensures { result ≡ fault_number self }
    {
        match self {
            FlushFault::Refused(refusal) => refusal.number(),
            FlushFault::LeftOver(_) => 14,
        }
    }
}

impl fmt::Display for FlushFault {
    fn fmt<W: fmt::Write>(&self, f: &mut fmt::Formatter<W>) -> fmt::Result {
        match *self {
            FlushFault::Refused(refusal) => write!(f, "{refusal}"),
            FlushFault::LeftOver(LeftOver { count, due, .. }) => {
                let number = self.number();
                write!(
                    f,
                    "{number}: something is left to send, {count} sent, {due} bytes due"
                )
            }
        }
    }
}

impl Error for FlushFault {}
