// Why a call was refused: an element's fault whole inside a table's, and that inside the call's.
ghost use Rattle.std.specs.Prelude.{◌≡◌};
ghost use Rattle.presentation.specs.Faults.{call_number};
ghost use Rattle.presentation.specs.declared.fault.CallFault.TheVariants.{InTable};

use kinds::ElementFault;

// The six tables.
#[derive(Clone, Copy, PartialEq, Eq, Debug)]
pub enum Table {
    // A, the accepted relations
    Relations,
    // W, the worktable
    Work,
    // P, the row transform
    Left,
    // P*, its inverse
    LeftInverse,
    // Q, the column transform
    Right,
    // Q*, its inverse
    RightInverse,
}

// An element's fault, with its place.
#[derive(Clone, Copy, PartialEq, Eq, Debug)]
pub struct TableFault {
    pub table: Table,
    pub row: usize,
    pub column: usize,
    pub fault: ElementFault,
}

// Why a call was refused.
#[derive(Clone, Copy, PartialEq, Eq, Debug)]
pub enum CallFault {
    // a table under 1,024 elements, or a row under n
    Short,
    // the number of generators is 0 or above 32
    Generators,
    // there are 32 relations
    Full,
    // an entry of a table
    InTable(TableFault),
}

impl CallFault {
    // The refusal's number in the rules; that of a table's fault is its element's.
    pub fn number(self) -> u8
        ensures { result ≡ call_number self }
    {
        match self {
            CallFault::Short => 4,
            CallFault::Generators => 5,
            CallFault::Full => 6,
            CallFault::InTable(inner) => inner.fault.number(),
        }
    }
}

impl From<TableFault> for CallFault {
    ghost from_gives = { λ e r. r ≡ InTable e };

    fn from(e: TableFault) -> CallFault {
        CallFault::InTable(e)
    }
}
