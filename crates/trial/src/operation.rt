// The operations of a script, each with what stands after its code: numbers of one, two or four bytes, big-endian, and counted parts.
ghost use Rattle.std.specs.Prelude.{◌<◌, ◌≤◌, length, IfSome};

// What is left of a script.
#[derive(Drop)]
pub struct Script<'a> {
    pub rest: &'a [u8],
}

// An operation with its operands, by rising code.
#[derive(Clone, Copy)]
pub enum Operation<'a> {
    Lend {
        bytes: u16,
        numbers: u16,
    },
    Start {
        table: &'a [u8],
    },
    Add {
        inputs: &'a [u8],
        outputs: &'a [u8],
    },
    Amend {
        place: u32,
        inputs: &'a [u8],
        outputs: &'a [u8],
    },
    Withdraw {
        place: u32,
    },
    Load {
        record: &'a [u8],
    },
    Save {
        room: u16,
    },
    List {
        room: u16,
    },
    Audit,
    Symptoms {
        place: u32,
    },
    Conflict {
        place: u32,
        room: u16,
    },
    Candidates {
        room: u16,
    },
    Poke {
        place: u16,
        value: u8,
    },
    Tally {
        place: u16,
        value: u16,
    },
    Sum,
    Table {
        product: u8,
        room: u16,
    },
    Retest {
        first: &'a [u8],
        retest: &'a [u8],
        position: u32,
    },
    Judge {
        table: &'a [u8],
        record: &'a [u8],
        number: u32,
    },
}

impl<'a> Script<'a> {
    // A number of one byte.
    fn byte(&mut self) -> Option<u8>
        ensures rest { length self.new.rest.now ≤ length self.old.rest.now }
        ensures less { IfSome result (λ _. length self.new.rest.now < length self.old.rest.now) }
    {
        let (first, rest) = self.rest.split_first()?;
        self.rest = rest;
        Some(*first)
    }

    // A number of two bytes.
    fn two_bytes(&mut self) -> Option<u16>
        ensures { length self.new.rest.now ≤ length self.old.rest.now }
    {
        let (bytes, rest) = self.rest.split_first_chunk::<2>()?;
        self.rest = rest;
        Some(u16::from_be_bytes(*bytes))
    }

    // A number of four bytes.
    fn four_bytes(&mut self) -> Option<u32>
        ensures { length self.new.rest.now ≤ length self.old.rest.now }
    {
        let (bytes, rest) = self.rest.split_first_chunk::<4>()?;
        self.rest = rest;
        Some(u32::from_be_bytes(*bytes))
    }

    // Counted bytes.
    fn part(&mut self) -> Option<&'a [u8]>
        ensures { length self.new.rest.now ≤ length self.old.rest.now }
    {
        let count = self.two_bytes()?;
        let (part, rest) = self.rest.split_at_checked(usize::from(count))?;
        self.rest = rest;
        Some(part)
    }

    // The next operation; None where the code is none, or the script's end cuts the operation off.
    pub fn operation(&mut self) -> Option<Operation<'a>>
        ensures { IfSome result (λ _. length self.new.rest.now < length self.old.rest.now) }
    {
        Some(match self.byte()? {
            0 => Operation::Lend {
                bytes: self.two_bytes()?,
                numbers: self.two_bytes()?,
            },
            1 => Operation::Start {
                table: self.part()?,
            },
            2 => Operation::Add {
                inputs: self.part()?,
                outputs: self.part()?,
            },
            3 => Operation::Amend {
                place: self.four_bytes()?,
                inputs: self.part()?,
                outputs: self.part()?,
            },
            4 => Operation::Withdraw {
                place: self.four_bytes()?,
            },
            5 => Operation::Load {
                record: self.part()?,
            },
            6 => Operation::Save {
                room: self.two_bytes()?,
            },
            7 => Operation::List {
                room: self.two_bytes()?,
            },
            8 => Operation::Audit,
            9 => Operation::Symptoms {
                place: self.four_bytes()?,
            },
            10 => Operation::Conflict {
                place: self.four_bytes()?,
                room: self.two_bytes()?,
            },
            11 => Operation::Candidates {
                room: self.two_bytes()?,
            },
            12 => Operation::Poke {
                place: self.two_bytes()?,
                value: self.byte()?,
            },
            13 => Operation::Tally {
                place: self.two_bytes()?,
                value: self.two_bytes()?,
            },
            14 => Operation::Sum,
            15 => Operation::Table {
                product: self.byte()?,
                room: self.two_bytes()?,
            },
            16 => Operation::Retest {
                first: self.part()?,
                retest: self.part()?,
                position: self.four_bytes()?,
            },
            17 => Operation::Judge {
                table: self.part()?,
                record: self.part()?,
                number: self.four_bytes()?,
            },
            _ => return None,
        })
    }
}

impl Operation<'_> {
    // What a line calls it.
    pub fn name(self) -> &'static str {
        match self {
            Operation::Lend { .. } => "LEND",
            Operation::Start { .. } => "START",
            Operation::Add { .. } => "ADD",
            Operation::Amend { .. } => "AMEND",
            Operation::Withdraw { .. } => "WITHDRAW",
            Operation::Load { .. } => "LOAD",
            Operation::Save { .. } => "SAVE",
            Operation::List { .. } => "LIST",
            Operation::Audit => "AUDIT",
            Operation::Symptoms { .. } => "SYMPTOMS",
            Operation::Conflict { .. } => "CONFLICT",
            Operation::Candidates { .. } => "CANDIDATES",
            Operation::Poke { .. } => "POKE",
            Operation::Tally { .. } => "TALLY",
            Operation::Sum => "SUM",
            Operation::Table { .. } => "TABLE",
            Operation::Retest { .. } => "RETEST",
            Operation::Judge { .. } => "JUDGE",
        }
    }
}
