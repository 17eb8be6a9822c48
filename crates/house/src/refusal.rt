// Refusals (document 01, "Refusal numbers"): one enum for all calls, with each one's number and what it carries.
ghost use Rattle.std.specs.Prelude.{◌≡◌};
ghost use Rattle.house.specs.Refusal.{number_of, carried_of};

#[derive(Clone, Copy, Debug, PartialEq, Eq)]
pub enum Refusal {
    // A buffer is shorter than needed, and the count of entries or bytes needed where the paper says that one is carried.
    Short(usize),
    Version,
    Length,
    Size,
    // The lowest bad cell.
    Cell(usize),
    Step,
    Full,
    Slot,
    Damaged,
    Record,
    Number,
}

impl Refusal {
    pub fn number(self) -> usize
        ensures { result ≡ number_of self }
    {
        match self {
            Refusal::Short(_) => 1,
            Refusal::Version => 2,
            Refusal::Length => 3,
            Refusal::Size => 4,
            Refusal::Cell(_) => 5,
            Refusal::Step => 6,
            Refusal::Full => 7,
            Refusal::Slot => 8,
            Refusal::Damaged => 9,
            Refusal::Record => 10,
            Refusal::Number => 11,
        }
    }

    pub fn carried(self) -> usize
        ensures { result ≡ carried_of self }
    {
        match self {
            Refusal::Short(count) => count,
            Refusal::Cell(cell) => cell,
            _ => 0,
        }
    }
}
