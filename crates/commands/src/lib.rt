// One command with its operands, where one is due.
#![tactic(auto)]

pub mod opening;
pub mod table;

ghost use Rattle.std.specs.Prelude.{◌≡◌, ◌+◌, ◌≤◌, length};
ghost use Rattle.format.specs.Format.{term_count, operands, term_byte, clause_at, command_of, read_at};
ghost use Rattle.format.specs.Stored.{leading_of};
ghost use Rattle.format.specs.Told.{step_told};

use format::{Command, Fault, Leading, Section, Shape, Taken, Test};

// A constant's command has this many bytes.
pub const CONSTANT_SIZE: usize = 5;

// The byte of term number k of a clause with so many terms, 0 where it has none.
pub fn term_byte(bytes: &[u8], i: usize, count: usize, k: usize) -> u8
    requires { i + count ≤ length bytes.now }
    ensures { result ≡ term_byte bytes.now i count k }
{
    if k < count { bytes[i + k] } else { 0 }
}

fn clause_at(bytes: &[u8], i: usize, section: Section, test: Test) -> Command
    requires { i + term_count test ≤ length bytes.now }
    ensures { result ≡ clause_at bytes.now i section test }
{
    let count = table::term_count(test);
    Command::Clause {
        section,
        test,
        a: term_byte(bytes, i, count, 0),
        b: term_byte(bytes, i, count, 1),
        c: term_byte(bytes, i, count, 2),
    }
}

// The command whose operands start at an offset.
#[tactic(auto, unfolding(format::specs::Format::command_of))]
fn command_of(bytes: &[u8], i: usize, shape: Shape) -> Command
    requires { i + operands shape ≤ length bytes.now }
    ensures { result ≡ command_of bytes.now i shape }
{
    match shape {
        Shape::End => Command::End,
        Shape::Head => Command::Head,
        Shape::Constant => Command::Constant(basics::four_bytes(bytes, i)),
        Shape::Clause(section, test) => clause_at(bytes, i, section, test),
    }
}

// The constant that stands at an offset where one more may stand.
pub fn constant_at(bytes: &[u8], at: usize) -> Option<Leading>
    ensures { result ≡ leading_of (read_at bytes.now at) }
{
    let Ok(Taken { command, next }) = read_at(bytes, at) else {
        return None;
    };
    let Command::Constant(number) = command else {
        return None;
    };
    Some(Leading { number, next })
}

// What stands at an offset where a command is due. Its three callers each look at some of its cases, so it is
// compiled into each.
#[tactic(auto, unfolding(format::specs::Format::read_at, format::specs::Format::whole_at))]
#[inline(always)]
pub fn read_at(bytes: &[u8], at: usize) -> Result<Taken, Fault>
    ensures { step_told result ≡ read_at bytes.now at }
{
    if bytes.len() <= at {
        return Err(Fault::CutShort);
    }
    let Some(shape) = table::entry_of(bytes[at]) else {
        return Err(Fault::UnknownCommand);
    };
    let width = table::operand_count(shape);
    let from = at + 1;
    if bytes.len() - from < width {
        return Err(Fault::CutShort);
    }
    let command = command_of(bytes, from, shape);
    Ok(Taken {
        command,
        next: from + width,
    })
}
