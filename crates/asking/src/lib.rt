// Asking: reads a question, decides it, and leaves its answer in the lent bytes.
#![tactic(auto)]

ghost use Rattle.std.specs.Prelude.{◌≡◌, IfOk, ◌++◌, ◌≤◌, length, drop, eqb, Ok};
ghost use Rattle.shares.specs.Constant.{constant_levels};
ghost use Rattle.systems.specs.Questions as model;
ghost use Rattle.systems.specs.Answers.{verdict, reason, disequation_number, height_given};
ghost use Rattle.systems.specs.Decide.{decide};
ghost use Rattle.rows.specs.Rows.{answer_bytes, zeros};
ghost use Rattle.decide.specs.Findings.{answer_of};
ghost use Rattle.decide.specs.Decision.{SizedFor, DecidedFor};
ghost use Rattle.asking.specs.Asking.{work_bytes, answered, asked_with, answer_outcome, outcome_of, answer_after};
ghost use Rattle.asking.specs.Asking.{work_after};
ghost use Rattle.asking.specs.declared.Refusal.TheVariants.{Question};
ghost use Rattle.asking.specs.Told.{refusal_number, refusal_place, told};
ghost use Rattle.asking.specs.Exact.{Exact};
ghost use Rattle.asking.specs.Demand3.{Demand3};

use basics::CLAUSE_BYTES;
use beside::Sizes;
use decide::Finding;
use format::Refused;
use rows::ANSWER_BYTES;
use words::{FIRST_WORDS, LEAF_WORDS, Passing};

// This many bytes of the work area are zero after a yes or no.
const WORK_BYTES: usize = 4096;

// The answer to a question: what was found, and the height given with it.
#[derive(Clone, Copy)]
pub struct Answer {
    pub finding: Finding,
    pub height: usize,
}

impl Answer {
    // The number of the verdict: 1 for yes, 2 for no.
    pub fn verdict(self) -> u8
        ensures { result ≡ verdict (answer_of self.finding) }
    {
        match self.finding {
            Finding::Satisfied | Finding::Vacuous | Finding::Entailed => 1,
            Finding::Unsatisfied | Finding::Unmet | Finding::Missed(_) => 2,
        }
    }

    // Whether the verdict is yes.
    pub fn is_yes(self) -> bool
        ensures { result ≡ eqb (verdict (answer_of self.finding)) 1 }
    {
        self.verdict() == 1
    }

    // The number of the reason, 0 where there is none.
    pub fn reason(self) -> u8
        ensures { result ≡ reason (answer_of self.finding) }
    {
        match self.finding {
            Finding::Satisfied | Finding::Unsatisfied | Finding::Entailed => 0,
            Finding::Vacuous => 1,
            Finding::Unmet => 2,
            Finding::Missed(_) => 3,
        }
    }

    // The number of the disequation that is missed, 0 where none is.
    pub fn disequation(self) -> usize
        ensures { result ≡ disequation_number (answer_of self.finding) }
    {
        match self.finding {
            Finding::Missed(j) => j,
            _ => 0,
        }
    }
}

// Why a question is not answered: its bytes are none, the answer buffer is too short, or the work area is.
#[derive(Clone, Copy)]
pub enum Refusal {
    Question(Refused),
    ShortAnswer,
    ShortWork,
}

// A refusal of the reader is one.
impl From<Refused> for Refusal {
    ghost from_gives = { λ refused refusal. refusal ≡ Question refused };

    fn from(refused: Refused) -> Refusal {
        Refusal::Question(refused)
    }
}

// The number of a refusal.
impl From<Refusal> for u8 {
    ghost from_gives = { λ refusal number. number ≡ refusal_number refusal };

    fn from(refusal: Refusal) -> u8 {
        match refusal {
            Refusal::Question(refused) => u8::from(refused.fault),
            Refusal::ShortAnswer => 11,
            Refusal::ShortWork => 12,
        }
    }
}

impl Refusal {
    // The offset of a fault, 0 where the question has none.
    pub fn place(self) -> usize
        ensures { result ≡ refusal_place self }
    {
        match self {
            Refusal::Question(refused) => refused.place,
            Refusal::ShortAnswer | Refusal::ShortWork => 0,
        }
    }
}

// What was found of a question with these numbers, with the height given.
fn found(sizes: Sizes, finding: Finding) -> Answer
    requires { (q : model.Question) × SizedFor sizes q }
    ensures finding { result.finding ≡ finding }
    ensures outcome { (q : model.Question) → SizedFor sizes q
        → told (Ok result) ≡ answer_outcome (answer_of finding)
        (height_given (model.question_height q) q (answer_of finding)) }
{
    let height = decide::height_given(sizes, finding);
    Answer { finding, height }
}

// Shows the solution of what was found, where there is one to show.
fn show_solution(
    answer: &mut [u8],
    sizes: Sizes,
    finding: Finding,
    firsts: &[Passing; FIRST_WORDS],
    leaves: &[Passing; LEAF_WORDS],
)
    requires constant_levels_in_bounds { answer_bytes constant_levels ≤ length answer.old }
    requires decided_for { (q : model.Question) × DecidedFor sizes finding firsts.now leaves.now q }
    ensures { (q : model.Question) → DecidedFor sizes finding firsts.now leaves.now q
        → answer.new ≡ answer_after (answered q) answer.old }
{
    if decide::is_shown(finding) {
        let plan = decide::plan(sizes, finding, firsts, leaves);
        show::write_rows(answer, sizes.free, plan);
    }
}

// Sets the first bytes of the work area to zero.
fn clear_work(work: &mut [u8])
    requires { work_bytes ≤ length work.old }
    ensures { work.new ≡ zeros work_bytes ++ drop work_bytes work.old }
{
    work[..WORK_BYTES].fill(0);
}

// Reads a question and answers it. Every byte string and all buffers may be handed over.
pub fn ask(question: &[u8], answer: &mut [u8], work: &mut [u8]) -> Result<Answer, Refusal>
    ensures outcome { told result ≡ outcome_of (asked_with question.now answer.old work.old) }
    ensures answer { answer.new ≡ answer_after (asked_with question.now answer.old work.old) answer.old }
    ensures work { work.new ≡ work_after (asked_with question.now answer.old work.old) work.old }
    ensures model { (q : model.Question) → asked_with question.now answer.old work.old ≡ answered q
        → Exact q (told result) × Demand3 q (told result) answer.new }
    ensures finding { IfOk result (λ a. (q : model.Question) → asked_with question.now answer.old work.old ≡ answered q
        → answer_of a.finding ≡ decide q) }
{
    let mut clauses = [0u8; CLAUSE_BYTES];
    let read = questions::read(question, &mut clauses)?;
    if answer.len() < ANSWER_BYTES {
        return Err(Refusal::ShortAnswer);
    }
    if work.len() < WORK_BYTES {
        return Err(Refusal::ShortWork);
    }
    let searched = decide::searchable(&read, &clauses);
    let mut firsts = [Passing::NONE; FIRST_WORDS];
    let mut leaves = [Passing::NONE; LEAF_WORDS];
    let finding = decide::decide(&searched, read.kind, &mut firsts, &mut leaves);
    show_solution(answer, searched.sizes, finding, &firsts, &leaves);
    clear_work(work);
    Ok(found(searched.sizes, finding))
}
