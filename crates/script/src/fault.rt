// Why a part of a line was not read, or made no picture.
ghost use Rattle.std.specs.Prelude.{◌≡◌};

use crate::script::Unread;
use refusal::{HandedBack, Refusal};
use std::alloc::AllocFailed;

#[derive(Clone, Copy)]
pub enum Fault {
    // it says nothing that may stand there
    Unreadable,
    NoMemory,
}

impl Fault {
    ghost use Rattle.script.specs.Faults.{at_line};

    // What it makes of the line of this number.
    pub fn at(self, line: u32) -> Unread
        ensures { result ≡ at_line line self }
    {
        match self {
            Fault::Unreadable => Unread::BadLine(line),
            Fault::NoMemory => Unread::NoMemory,
        }
    }
}

impl<T: Drop> From<AllocFailed<T>> for Fault {
    ghost use Rattle.script.specs.declared.fault.Fault.TheVariants.{NoMemory};

    ghost from_gives = { λ _ fault. fault ≡ NoMemory };

    fn from(_failed: AllocFailed<T>) -> Fault {
        Fault::NoMemory
    }
}

// Why the fields of a picture made none.
#[derive(Clone, Copy)]
pub enum Unmade {
    // they were read, and the picture was refused
    Refused(Refusal),
    NotRead(Fault),
}

impl From<Fault> for Unmade {
    ghost use Rattle.script.specs.declared.fault.Unmade.TheVariants.{NotRead};

    ghost from_gives = { λ fault unmade. unmade ≡ NotRead fault };

    fn from(fault: Fault) -> Unmade {
        Unmade::NotRead(fault)
    }
}

impl<T: Drop> From<HandedBack<T>> for Unmade {
    ghost use Rattle.script.specs.declared.fault.Unmade.TheVariants.{Refused};

    ghost from_gives = { λ back unmade. unmade ≡ Refused back.refusal };

    fn from(back: HandedBack<T>) -> Unmade {
        Unmade::Refused(back.refusal)
    }
}
