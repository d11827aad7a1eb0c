// The table of commands: what a command byte announces, how many terms each test takes, and how it reads as a join at
// one leaf.
ghost use Rattle.std.specs.Prelude.{◌≡◌, ◌≤◌, ◌<◌};
ghost use Rattle.format.specs.Format.{entry_of, term_count, operands};
ghost use Rattle.format.specs.Stored.{four, join_for};

use basics::{EMPTY_PART, FULL_PART};
use format::{LeafJoin, Section, Shape, Test};

// The commands that are no clauses.
#[tactic(auto, unfolding(format::specs::Format::entry_of))]
fn plain_entry(byte: u8) -> Option<Shape>
    requires { byte < 0x10 }
    ensures { result ≡ entry_of byte }
{
    match byte {
        0x00 => Some(Shape::End),
        0x01 => Some(Shape::Head),
        0x03 => Some(Shape::Constant),
        _ => None,
    }
}

// Joins, equalities and their negations.
#[tactic(auto, unfolding(format::specs::Format::entry_of))]
fn clause_entry(byte: u8) -> Option<Shape>
    requires { (0x10 ≤ byte) × (byte < 0x30) }
    ensures { result ≡ entry_of byte }
{
    match byte {
        0x10 => Some(Shape::Clause(Section::FirstPositive, Test::Join)),
        0x11 => Some(Shape::Clause(Section::FirstDisequation, Test::Join)),
        0x12 => Some(Shape::Clause(Section::FirstPositive, Test::Equality)),
        0x13 => Some(Shape::Clause(Section::FirstDisequation, Test::Equality)),
        0x20 => Some(Shape::Clause(Section::SecondPositive, Test::Join)),
        0x21 => Some(Shape::Clause(Section::SecondDisequation, Test::Join)),
        0x22 => Some(Shape::Clause(Section::SecondPositive, Test::Equality)),
        0x23 => Some(Shape::Clause(Section::SecondDisequation, Test::Equality)),
        _ => None,
    }
}

// Permission policies.
#[tactic(auto, unfolding(format::specs::Format::entry_of))]
fn policy_entry(byte: u8) -> Option<Shape>
    requires { 0x30 ≤ byte }
    ensures { result ≡ entry_of byte }
{
    match byte {
        0x30 => Some(Shape::Clause(Section::FirstPositive, Test::Full)),
        0x31 => Some(Shape::Clause(Section::FirstDisequation, Test::Empty)),
        0x32 => Some(Shape::Clause(Section::FirstPositive, Test::Together)),
        0x38 => Some(Shape::Clause(Section::SecondPositive, Test::Full)),
        0x39 => Some(Shape::Clause(Section::SecondDisequation, Test::Empty)),
        0x3A => Some(Shape::Clause(Section::SecondPositive, Test::Together)),
        _ => None,
    }
}

// What a command byte announces. One long table would be a function of its own for the compiler, called for each
// command of a question.
pub fn entry_of(byte: u8) -> Option<Shape>
    ensures { result ≡ entry_of byte }
{
    if byte < 0x10 {
        return plain_entry(byte);
    }
    if byte < 0x30 {
        return clause_entry(byte);
    }
    policy_entry(byte)
}

pub fn term_count(test: Test) -> usize
    ensures { result ≡ term_count test }
{
    match test {
        Test::Join => 3,
        Test::Equality => 2,
        Test::Full => 1,
        Test::Empty => 1,
        Test::Together => 2,
    }
}

// How many bytes of operands follow a command byte.
pub fn operand_count(shape: Shape) -> usize
    ensures { result ≡ operands shape }
{
    match shape {
        Shape::End => 0,
        Shape::Head => 3,
        Shape::Constant => 4,
        Shape::Clause(_, test) => term_count(test),
    }
}

fn four(form: u8, first: u8, second: u8, sum: u8) -> LeafJoin
    ensures { result ≡ four form first second sum }
{
    LeafJoin {
        form,
        first,
        second,
        sum,
    }
}

// How a test with these terms reads as a join at one leaf.
#[tactic(auto, using(format::proofs::KeepingLaws::byte_back))]
pub fn join_for(test: Test, a: u8, b: u8, c: u8) -> LeafJoin
    ensures { result ≡ join_for test a b c }
{
    match test {
        Test::Join => four(0, a, b, c),
        Test::Equality => four(0, a, EMPTY_PART, b),
        Test::Full => four(0, a, EMPTY_PART, FULL_PART),
        Test::Empty => four(0, a, EMPTY_PART, EMPTY_PART),
        Test::Together => four(1, a, b, EMPTY_PART),
    }
}
