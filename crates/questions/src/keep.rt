// A clause that has no fault is kept, in its section, and with it which constants it names.
ghost use Rattle.std.specs.Prelude.{◌≡◌, ◌+◌, ◌≤◌, length};
ghost use Rattle.format.specs.Stored.{clause_bytes, clause_written};
ghost use Rattle.format.specs.Keeping.{kept_clauses, constants_in, kept_names, PartsSmall, SmallIn, clause_counts};
ghost use Rattle.format.specs.Keeping.{Slot};

use commands::table;
use faults::sections;
use format::{Command, LeafJoin};

fn store(clauses: &mut [u8], i: usize, join: LeafJoin)
    requires { i + 4 ≤ length clauses.old }
    ensures { clauses.new ≡ clause_written clauses.old i join }
{
    clauses[i] = join.form;
    clauses[i + 1] = join.first;
    clauses[i + 2] = join.second;
    clauses[i + 3] = join.sum;
}

// The constants among the parts of a join, constant i at bit i. The other parts have numbers below 32, which the shift
// drops.
fn constants_in(join: LeafJoin) -> u64
    requires { PartsSmall join }
    ensures { result ≡ constants_in join }
{
    let a: u64 = 1 << usize::from(join.first);
    let b: u64 = 1 << usize::from(join.second);
    let c: u64 = 1 << usize::from(join.sum);
    (a | b | c) >> 32
}

pub fn keep_clause(clauses: &mut [u8], counts: &[usize; 4], named: u64, command: Command) -> u64
    requires clauses_len { length clauses.old ≡ clause_bytes }
    requires slot { Slot counts.now command × SmallIn command }
    ensures { (clauses.new ≡ kept_clauses clauses.old counts.now command) × (result ≡ kept_names named command) }
{
    match command {
        Command::End | Command::Head | Command::Constant(_) => named,
        Command::Clause {
            section,
            test,
            a,
            b,
            c,
        } => {
            let i = sections::section_start(section) + 4 * faults::section_count(counts, section);
            let join = table::join_for(test, a, b, c);
            store(clauses, i, join);
            named | constants_in(join)
        }
    }
}

pub fn count_clause(counts: &mut [usize; 4], command: Command)
    requires { Slot counts.old command }
    ensures { counts.new ≡ clause_counts counts.old command }
{
    match command {
        Command::End | Command::Head | Command::Constant(_) => {}
        Command::Clause { section, .. } => counts[usize::from(section)] += 1,
    }
}
