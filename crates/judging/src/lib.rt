// Judging: whether the rows that someone hands over solve a question's first system and, for an entailment, do not
// extend to the second.
#![tactic(auto)]

ghost use Rattle.std.specs.Prelude.{◌≡◌, ℕ, length};
ghost use Rattle.shares.specs.Constant.{constant_levels};
ghost use Rattle.systems.specs.Questions as model;
ghost use Rattle.format.specs.declared.Section.TheVariants.{FirstPositive, FirstDisequation};
ghost use Rattle.format.specs.Format.{most_constants, accepted, read};
ghost use Rattle.format.specs.Numbers.{kind_value};
ghost use Rattle.format.specs.Stored.{stored_of, Stands, place_of, leading};
ghost use Rattle.rows.specs.Rows.{answer_bytes};
ghost use Rattle.asking.specs.Demand3.{row_shares};
ghost use Rattle.unfolded.specs.Unfolded.{PartsIn};
ghost use Rattle.judging.specs.Judging.{judged, judged_with, judgement_of};
ghost use Rattle.judging.specs.Judging as given;
ghost use Rattle.judging.specs.Exactly.{Exactly, AskingShows};
ghost use Rattle.judging.specs.Told.{refusal_number, refusal_place, verdict_told, told};
ghost use Rattle.judging.specs.declared.Refusal.TheVariants as refusals;
ghost use Rattle.judging.specs.Walk.{first_told, JoinBroken, CommandBroken, CommandFits, says_first, First};

use basics::CLAUSE_BYTES;
use commands::{CONSTANT_SIZE, table};
use faults::sections;
use format::{Command, Kind, LeafJoin, Question, Refused, Section, Taken};
use rows::ANSWER_BYTES;
use shares::Way;
use unfolded::{ROW_WORDS, TABLE_WORDS};

// Why nothing is judged: the question is refused, the rows have another length than they must have, or a row of no free
// variable has a bit set.
#[derive(Clone, Copy)]
pub enum Refusal {
    Question(Refused),
    RowsLength,
    RowsNotZero,
}

// The number of a refusal.
impl From<Refusal> for u8 {
    ghost from_gives = { λ refusal number. number ≡ refusal_number refusal };

    fn from(refusal: Refusal) -> u8 {
        match refusal {
            Refusal::Question(refused) => u8::from(refused.fault),
            Refusal::RowsLength => 18,
            Refusal::RowsNotZero => 19,
        }
    }
}

impl Refusal {
    // The offset of a question's fault, 0 where the rows are refused.
    pub fn place(self) -> usize
        ensures { result ≡ refusal_place self }
    {
        match self {
            Refusal::Question(refused) => refused.place,
            Refusal::RowsLength | Refusal::RowsNotZero => 0,
        }
    }
}

impl From<Refused> for Refusal {
    ghost from_gives = { λ refused refusal. refusal ≡ refusals.Question refused };

    fn from(refused: Refused) -> Refusal {
        Refusal::Question(refused)
    }
}

// How the test of a positive clause comes out at the lowest leaf where it does not hold, and that leaf.
#[derive(Clone, Copy)]
pub struct Failing {
    pub way: Way,
    pub leaf: usize,
}

// A clause of the first system that is broken, by its number; a positive one fails at a leaf, and a disequation at
// none.
#[derive(Clone, Copy)]
pub struct BrokenClause {
    pub number: usize,
    pub failing: Option<Failing>,
}

// What is judged of rows: they are accepted; or rejected because a clause of the first system is broken, the lowest
// such; or because they extend.
#[derive(Clone, Copy)]
pub enum Verdict {
    Accepted,
    Broken(BrokenClause),
    Extending,
}

// Whether a command is a clause of the first system.
fn is_first(command: Command) -> bool
    ensures { result ≡ says_first command }
{
    matches!(command, Command::Clause { section, .. } if !sections::is_second(section))
}

// What is said of a positive clause that reads so, if the rows of a table break it.
fn broken_positive(
    leaves: &[u64; TABLE_WORDS],
    join: LeafJoin,
    number: usize,
) -> Option<BrokenClause>
    requires { PartsIn join }
    ensures { JoinBroken constant_levels leaves.now FirstPositive join number result }
{
    if unfolded::everywhere(leaves, join) {
        return None;
    }
    let leaf = unfolded::first_failing(leaves, join);
    let way = unfolded::way_at(leaves, join, leaf);
    Some(BrokenClause {
        number,
        failing: Some(Failing { way, leaf }),
    })
}

// The same of a disequation, whose atom then holds at every leaf.
fn broken_disequation(
    leaves: &[u64; TABLE_WORDS],
    join: LeafJoin,
    number: usize,
) -> Option<BrokenClause>
    requires { PartsIn join }
    ensures { JoinBroken constant_levels leaves.now FirstDisequation join number result }
{
    let broken = BrokenClause {
        number,
        failing: None,
    };
    unfolded::everywhere(leaves, join).then_some(broken)
}

// The same of a clause of a section; the rows break none of the second system.
fn broken_in(
    leaves: &[u64; TABLE_WORDS],
    section: Section,
    join: LeafJoin,
    number: usize,
) -> Option<BrokenClause>
    requires { PartsIn join }
    ensures { JoinBroken constant_levels leaves.now section join number result }
{
    match section {
        Section::FirstPositive => broken_positive(leaves, join, number),
        Section::FirstDisequation => broken_disequation(leaves, join, number),
        Section::SecondPositive | Section::SecondDisequation => None,
    }
}

// The same of a command, as clause `number`.
fn broken_by(leaves: &[u64; TABLE_WORDS], command: Command, number: usize) -> Option<BrokenClause>
    requires { CommandFits command }
    ensures { CommandBroken constant_levels leaves.now command number result }
{
    let Command::Clause {
        section,
        test,
        a,
        b,
        c,
    } = command
    else {
        return None;
    };
    broken_in(leaves, section, table::join_for(test, a, b, c), number)
}

// The lowest clause of the first system that the rows of a table break, in the order of the question. The question is
// gone over once more from behind its constants, for what was stored of it is apart by sections. Commands differ in
// width, so the loop goes from offset to offset.
fn judge_first(bytes: &[u8], from: usize, leaves: &[u64; TABLE_WORDS]) -> Option<BrokenClause>
    requires { ((q : model.Question) × (read bytes.now ≡ accepted q))
        × (from ≡ place_of (leading most_constants bytes.now 0)) }
    ensures { First constant_levels bytes.now leaves.now (first_told result) }
{
    let mut count: usize = 0;
    let mut at = from;
    while let Ok(Taken { command, next }) = commands::read_at(bytes, at) {
        if let Command::End = command {
            return None;
        }
        if is_first(command) {
            if let Some(broken) = broken_by(leaves, command, count) {
                return Some(broken);
            }
            count += 1;
        }
        at = next;
    }
    None
}

// Judges rows that are as long as they must be, of a question that was read.
fn judge_rows(
    bytes: &[u8],
    question: Question,
    clauses: &[u8; CLAUSE_BYTES],
    rows: &[u8],
) -> Verdict
    requires rows_len { length rows.now ≡ answer_bytes constant_levels }
    requires bytes_value { (q : model.Question) × (read bytes.now ≡ accepted q)
        × Stands (kind_value question.kind) (stored_of question clauses.now) q }
    requires defined_value { question.defined ≡ leading most_constants bytes.now 0 }
    ensures { (q : model.Question) → read bytes.now ≡ accepted q
        → Stands (kind_value question.kind) (stored_of question clauses.now) q
        → verdict_told result ≡ judgement_of (judged q) rows.now }
{
    let mut leaves = [0u64; TABLE_WORDS];
    unfolded::unfold(rows, &question.constants, question.named, &mut leaves);
    if let Some(broken) = judge_first(bytes, 4 + CONSTANT_SIZE * question.defined, &leaves) {
        return Verdict::Broken(broken);
    }
    if let Kind::Satisfiability = question.kind {
        return Verdict::Accepted;
    }
    let searchable = decide::searchable(&question, clauses);
    if extending::extends(&searchable, &leaves) {
        return Verdict::Extending;
    }
    Verdict::Accepted
}

// Reads a question and judges rows for it. Every byte string may be handed over, as either.
pub fn judge(question: &[u8], rows: &[u8]) -> Result<Verdict, Refusal>
    ensures result { told result ≡ judgement_of (judged_with question.now rows.now) rows.now }
    ensures model { (q : model.Question) → judged_with question.now rows.now ≡ judged q
        → Exactly q (row_shares q.constants.levels rows.now) (λ j. told result ≡ j) }
    ensures shown { AskingShows question.now rows.now → told result ≡ given.Accepted }
{
    let mut clauses = [0u8; CLAUSE_BYTES];
    let read = questions::read(question, &mut clauses)?;
    if rows.len() != ANSWER_BYTES {
        return Err(Refusal::RowsLength);
    }
    if !unfolded::zero_from(rows, read.free * ROW_WORDS) {
        return Err(Refusal::RowsNotZero);
    }
    Ok(judge_rows(question, read, &clauses, rows))
}
