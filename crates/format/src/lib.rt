// The byte format of a question: its types; what reading gives, and how a question is stored, in specs/.
#![tactic(auto)]

ghost use Rattle.std.specs.Prelude.{◌≡◌, true, ◌+◌, ◌≤◌};
ghost use Rattle.format.specs.Format.{head_fits};
ghost use Rattle.format.specs.Numbers.{fault_number, kind_value, section_number};

// Why a byte string is no question. Each has the number that docs/SPEC.md gives it.
#[derive(Clone, Copy, PartialEq, Eq, Debug)]
pub enum Fault {
    NoHead = 1,
    CutShort = 2,
    UnknownCommand = 3,
    OutOfPlace = 4,
    UnfitHead = 5,
    ConstantTooMany = 6,
    ClauseTooMany = 7,
    NamesNothing = 8,
    ForeignClause = 9,
    BytesAfter = 10,
}

impl From<Fault> for u8 {
    ghost from_gives = { λ fault number. number ≡ fault_number fault };

    fn from(fault: Fault) -> u8 {
        fault as u8
    }
}

// What a question asks: whether its system can be satisfied, or whether its first system entails its second.
#[derive(Clone, Copy, PartialEq, Eq)]
pub enum Kind {
    Satisfiability,
    Entailment,
}

// The positive clauses and the disequations of each system.
#[derive(Clone, Copy, PartialEq, Eq)]
pub enum Section {
    FirstPositive,
    FirstDisequation,
    SecondPositive,
    SecondDisequation,
}

// The sections are counted in this order.
impl From<Section> for usize {
    ghost from_gives = { λ section number. number ≡ section_number section };

    fn from(section: Section) -> usize {
        section as usize
    }
}

// What a clause says or denies: "a join b is c", "a is b", "a is full", "a is empty", or "a and b may be held
// together".
#[derive(Clone, Copy)]
pub enum Test {
    Join,
    Equality,
    Full,
    Empty,
    Together,
}

// How a test reads as a join at one leaf. Form 0: the first part join the second is the sum; form 1: the two do not
// overlap. A part is a term's byte, 0C for one that is always empty, or 0D for one that is always full. All four are
// bytes, form and parts alike, as they are stored.
#[derive(Clone, Copy)]
pub struct LeafJoin {
    pub form: u8,
    pub first: u8,
    pub second: u8,
    pub sum: u8,
}

// What a command byte announces.
#[derive(Clone, Copy)]
pub enum Shape {
    End,
    Head,
    Constant,
    Clause(Section, Test),
}

// A command with its operands.
#[derive(Clone, Copy)]
pub enum Command {
    End,
    Head,
    Constant(u64),
    Clause {
        section: Section,
        test: Test,
        a: u8,
        b: u8,
        c: u8,
    },
}

// A command that was read, and the offset after it.
#[derive(Clone, Copy)]
pub struct Taken {
    pub command: Command,
    pub next: usize,
}

// A constant that stands where one more may stand, and the offset after it.
#[derive(Clone, Copy)]
pub struct Leading {
    pub number: u64,
    pub next: usize,
}

// A head that fits: the kind of the question, and how many free and own variables it has.
#[derive(Clone, Copy)]
pub struct Head {
    pub kind: Kind,
    pub free: usize,
    pub own: usize,
    pub ghost own_bound: { free + own ≤ 12 },
}

// A question that was read: its kind, its free and own variables, its constants, of which so many are defined, which of
// them some clause names, constant i at bit i, and how many clauses each section has. The clauses themselves are bytes
// beside it, four a clause: how it reads as a join at a leaf. Sections: 0 first positive, from byte 0; 1 first
// disequations, from 256; 2 second positive, from 384; 3 second disequations, from 640.
#[derive(Clone, Copy)]
pub struct Question {
    pub kind: Kind,
    pub free: usize,
    pub own: usize,
    pub constants: [u64; 32],
    pub defined: usize,
    pub named: u64,
    pub counts: [usize; 4],
}

// Why reading refuses a byte string, and at which offset.
#[derive(Clone, Copy)]
pub struct Refused {
    pub fault: Fault,
    pub place: usize,
}
