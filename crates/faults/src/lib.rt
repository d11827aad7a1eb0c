// What is wrong with a command, by what was read before it.
#![tactic(auto)]

pub mod sections;

ghost use Rattle.std.specs.Prelude.{◌≡◌, ◌+◌, ◌≤◌, eqb};
ghost use Rattle.format.specs.Format.{read_at, names, variables_for, term_named, all_named, clause_fault};
ghost use Rattle.format.specs.Format.{constant_fault};
ghost use Rattle.format.specs.Stored.{count_of, Counted};
ghost use Rattle.format.specs.Keeping.{clause_total, foreign_to, fault_of, judged_of};
ghost use Rattle.format.specs.Numbers.{kind_value};
ghost use Rattle.format.specs.Told.{fault_told, step_told};

use commands::table;
use format::{Command, Fault, Head, Kind, Section, Taken, Test};

// Whether a term names something defined: one of the variables, or one of the constants.
#[tactic(auto, unfolding(format::specs::Format::names))]
fn names_it(variables: usize, constants: usize, term: u8) -> bool
    ensures { result ≡ names variables constants term }
{
    let t = usize::from(term);
    if t < 0x20 {
        t < variables
    } else {
        t - 0x20 < constants
    }
}

// Whether term number k of a test with so many terms names something defined, where it has one.
fn term_named(variables: usize, constants: usize, count: usize, k: usize, term: u8) -> bool
    ensures { result ≡ term_named variables constants count k term }
{
    count <= k || names_it(variables, constants, term)
}

fn all_named(variables: usize, constants: usize, test: Test, a: u8, b: u8, c: u8) -> bool
    ensures { result ≡ all_named variables constants test a b c }
{
    let count = table::term_count(test);
    term_named(variables, constants, count, 0, a)
        && term_named(variables, constants, count, 1, b)
        && term_named(variables, constants, count, 2, c)
}

fn variables_for(free: usize, own: usize, section: Section) -> usize
    requires { free + own ≤ 12 }
    ensures { result ≡ variables_for free own section }
{
    if sections::is_second(section) {
        free + own
    } else {
        free
    }
}

fn is_foreign(kind: Kind, section: Section) -> bool
    ensures { result ≡ foreign_to (kind_value kind) section }
{
    match kind {
        Kind::Satisfiability => sections::is_second(section),
        Kind::Entailment => false,
    }
}

fn clause_fault(foreign: bool, filled: bool, named: bool) -> Result<(), Fault>
    ensures { fault_told result ≡ clause_fault foreign filled named }
{
    if foreign {
        return Err(Fault::ForeignClause);
    }
    if filled {
        return Err(Fault::ClauseTooMany);
    }
    if named {
        return Ok(());
    }
    Err(Fault::NamesNothing)
}

fn constant_fault(begun: bool, spent: bool) -> Result<(), Fault>
    ensures { fault_told result ≡ constant_fault begun spent }
{
    if begun {
        return Err(Fault::OutOfPlace);
    }
    if spent {
        return Err(Fault::ConstantTooMany);
    }
    Ok(())
}

fn clause_total(counts: &[usize; 4]) -> usize
    requires { Counted counts.now }
    ensures { result ≡ clause_total counts.now }
{
    counts[0] + counts[1] + (counts[2] + counts[3])
}

pub fn section_count(counts: &[usize; 4], section: Section) -> usize
    ensures { result ≡ count_of counts.now section }
{
    counts[usize::from(section)]
}

// What is wrong with a command, by what was read before it.
#[tactic(auto, unfolding(format::specs::Keeping::fault_of))]
fn fault_of(
    head: Head,
    constants: usize,
    counts: &[usize; 4],
    command: Command,
) -> Result<(), Fault>
    requires counted { Counted counts.now }
    ensures { fault_told result ≡ fault_of (kind_value head.kind) head.free head.own constants counts.now command }
{
    match command {
        Command::End => Ok(()),
        Command::Head => Err(Fault::OutOfPlace),
        Command::Constant(_) => {
            let total = clause_total(counts);
            constant_fault(0 < total, 32 <= constants)
        }
        Command::Clause {
            section,
            test,
            a,
            b,
            c,
        } => {
            let count = section_count(counts, section);
            let variables = variables_for(head.free, head.own, section);
            let named = all_named(variables, constants, test, a, b, c);
            clause_fault(
                is_foreign(head.kind, section),
                sections::most_of(section) <= count,
                named,
            )
        }
    }
}

// The command at an offset of a question with this head, or why it is refused.
pub fn read_under(
    bytes: &[u8],
    at: usize,
    head: Head,
    constants: usize,
    counts: &[usize; 4],
) -> Result<Taken, Fault>
    requires counted { Counted counts.now }
    ensures { step_told result ≡ judged_of (kind_value head.kind) head.free head.own constants counts.now
        (read_at bytes.now at) }
{
    let taken = commands::read_at(bytes, at)?;
    fault_of(head, constants, counts, taken.command)?;
    Ok(taken)
}

// The kind that stands for a number: only kind 0 has no second system.
fn kind_for(number: u8) -> Kind
    ensures { eqb (kind_value result) 0 ≡ eqb number 0 }
{
    match number {
        0 => Kind::Satisfiability,
        _ => Kind::Entailment,
    }
}

// The same by the numbers of a head, of which the kind may be any.
pub fn read_command(
    bytes: &[u8],
    at: usize,
    kind: u8,
    free: usize,
    own: usize,
    constants: usize,
    counts: &[usize; 4],
) -> Result<Taken, Fault>
    requires own_bound { free + own ≤ 12 }
    requires counted { Counted counts.now }
    ensures { step_told result ≡ judged_of kind free own constants counts.now (read_at bytes.now at) }
{
    let kind = kind_for(kind);
    read_under(bytes, at, Head { kind, free, own }, constants, counts)
}
