// Refusals: their numbers, and what they print.
ghost use Rattle.std.specs.Prelude.{◌≡◌};
ghost use Rattle.calculator.specs.declared.refusal.Refusal.TheVariants as refusal;
ghost use Rattle.calculator.specs.Numbered.{number, said};

use crate::BUDGET;
use matrix_market::{ReadFault, WriteFault};
use presentation::CallFault;
use std::alloc::AllocError;
use std::fmt;

// Why there is no form.
#[derive(Clone, Copy, PartialEq, Eq, Debug)]
pub enum Refusal {
    // there is no memory left
    Memory(AllocError),
    // the text is no matrix
    Read(ReadFault),
    // a relation or a step is refused
    Call(CallFault),
    // the form cannot be written
    Write(WriteFault),
    // the budget is spent
    Spent,
}

impl Refusal {
    // The refusal's number, where the rules give it one.
    pub fn number(self) -> Option<u8>
        ensures { result ≡ number self }
    {
        match self {
            Refusal::Memory(_) | Refusal::Spent => None,
            Refusal::Read(fault) => Some(fault.number()),
            Refusal::Call(fault) => Some(fault.number()),
            Refusal::Write(fault) => Some(fault.number()),
        }
    }
}

impl fmt::Display for Refusal {
    ghost output = { said };

    fn fmt<W: fmt::Write>(&self, f: &mut fmt::Formatter<W>) -> fmt::Result {
        match self {
            Refusal::Memory(_) => write!(f, "out of memory"),
            Refusal::Read(fault) => write!(f, "refused {}", fault.number()),
            Refusal::Call(fault) => write!(f, "refused {}", fault.number()),
            Refusal::Write(fault) => write!(f, "refused {}", fault.number()),
            Refusal::Spent => write!(f, "spent {BUDGET}"),
        }
    }
}

impl From<AllocError> for Refusal {
    ghost from_gives = { λ e r. r ≡ refusal.Memory e };

    fn from(e: AllocError) -> Refusal {
        Refusal::Memory(e)
    }
}

impl From<ReadFault> for Refusal {
    ghost from_gives = { λ e r. r ≡ refusal.Read e };

    fn from(e: ReadFault) -> Refusal {
        Refusal::Read(e)
    }
}

impl From<CallFault> for Refusal {
    ghost from_gives = { λ e r. r ≡ refusal.Call e };

    fn from(e: CallFault) -> Refusal {
        Refusal::Call(e)
    }
}

impl From<WriteFault> for Refusal {
    ghost from_gives = { λ e r. r ≡ refusal.Write e };

    fn from(e: WriteFault) -> Refusal {
        Refusal::Write(e)
    }
}
