// Why a record is refused: document 01's table, 1 to 9, and 02's 10, each fault with its number.
ghost use Rattle.std.specs.Prelude.{◌≡◌};
ghost use Rattle.cases.specs.Fault.{fault_no};

#[derive(Clone, Copy, PartialEq, Eq)]
pub enum Fault {
    Cut = 1,
    UnknownKind = 2,
    Length = 3,
    Misplaced = 4,
    Range = 5,
    Disorder = 6,
    TooMany = 7,
    Unused = 8,
    TooManySteps = 9,
    Unset = 10,
}

impl Fault {
    pub fn number(self) -> u8
        ensures { result ≡ fault_no self }
    {
        self as u8
    }
}
