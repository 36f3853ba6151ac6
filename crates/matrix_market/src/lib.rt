// Matrix Market files in array form: a reader into a lent table of integers, and a writer from one.
#![tactic(auto)]

ghost use Rattle.std.specs.Prelude.{◌≡◌};
ghost use Rattle.matrix_market.specs.Numbered.{read_number, write_number};

use kinds::ElementFault;

mod header;
mod lines;
mod numbers;
mod reader;
mod sizes;
mod writer;

pub use reader::read;
pub use writer::write;

// Why the reader refused; a line is counted from 1, and a missing one is the next.
#[derive(Clone, Copy, PartialEq, Eq, Debug)]
pub enum ReadFault {
    // the table has fewer than 1024 elements
    Short,
    // the first line is no header
    Header(usize),
    // no sizes in bounds
    SizeLine(usize),
    // no entry, or one that is out of range
    Entry(usize, Option<ElementFault>),
    // something after the last entry, or too many bytes
    LeftOver(usize),
}

// Why the writer refused.
#[derive(Clone, Copy, PartialEq, Eq, Debug)]
pub enum WriteFault {
    // the buffer has fewer than 12288 bytes, or the table fewer than 1024 elements
    Short,
    // more than 32 rows, no column or more than 32
    Sizes,
}

impl ReadFault {
    // The refusal's number, by which the rules name it.
    pub fn number(self) -> u8
        ensures { result ≡ read_number self }
    {
        match self {
            ReadFault::Short => 4,
            ReadFault::Header(_) => 10,
            ReadFault::SizeLine(_) => 11,
            ReadFault::Entry(_, _) => 12,
            ReadFault::LeftOver(_) => 13,
        }
    }
}

impl WriteFault {
    // The refusal's number, by which the rules name it.
    pub fn number(self) -> u8
        ensures { result ≡ write_number self }
    {
        match self {
            WriteFault::Short => 4,
            WriteFault::Sizes => 8,
        }
    }
}
