// Deciding a question that was read: which searches have a solution, and the plan of the one to show.
#![tactic(auto)]

ghost use Rattle.std.specs.Prelude.{◌≡◌, ℕ, ◌^◌, ◌<◌, ◌≤◌, T, get_or};
ghost use Rattle.shares.specs.Constant.{constant_levels, bit};
ghost use Rattle.systems.specs.Questions.{satisfiability, entailment, Question as Asked, WellFormed, question_height};
ghost use Rattle.systems.specs.Answers.{shows, height_given};
ghost use Rattle.format.specs.Numbers.{kind_value};
ghost use Rattle.format.specs.Stored.{stored_of, Stands};
ghost use Rattle.steps.specs.Steps.{posed};
ghost use Rattle.beside.specs.Beside.{Bounded};
ghost use Rattle.steps.specs.Tests.{extra_of, room_of};
ghost use Rattle.decide.specs.Findings.{answer_of};
ghost use Rattle.decide.specs.Decision.{Standing, tallest_of, sizes_of, search_of, Decided, DecidedAs, StandsFor};
ghost use Rattle.decide.specs.Decision.{SizedFor, DecidedFor, outline_of, Planned};

use basics::CLAUSE_BYTES;
use beside::{Searchable, Sizes};
use format::{Kind, Question};
use plans::{Outline, Plan};
use search::Survey;
use steps::Search;
use words::{FIRST_WORDS, LEAF_WORDS, Passing};

// What deciding finds. Of a question of satisfiability: a solution; none. Of an entailment: the first system has no
// solution; every solution extends; some solution cannot meet the second's positive clauses; some solution cannot have
// this disequation of the second beside them, and it is the lowest such.
#[derive(Clone, Copy, PartialEq, Eq, Debug)]
pub enum Finding {
    Satisfied,
    Unsatisfied,
    Vacuous,
    Entailed,
    Unmet,
    Missed(usize),
}

// The height of a question: that of the tallest constant that is named, by the leaves that are unlike their neighbours
// in any of them. What `as` converts fits, and `try_from` would have an error that cannot be.
fn question_height(constants: &[u64; 32], named: u64) -> usize
    requires { (named < 2 ^ 32) × ((i : ℕ) → T (bit named i) → get_or constants.now i 0 < 2 ^ 32) }
    ensures { result ≡ tallest_of constant_levels constants.now named }
{
    let mut leaves: u32 = 0;
    for i in words::bits(named) {
        leaves |= shares::unlike(constants[i] as u32);
    }
    shares::unlike_height(leaves) as usize
}

// A question that was read, as it is searched: its numbers, with its height, and its clauses and constants where they
// are.
pub fn searchable<'a>(question: &'a Question, clauses: &'a [u8; CLAUSE_BYTES]) -> Searchable<'a>
    requires { (q : Asked) × Stands (kind_value question.now.kind) (stored_of question.now clauses.now) q }
    ensures sizes { result.sizes ≡ sizes_of question.now }
    ensures clauses { result.clauses.now ≡ clauses.now }
    ensures constants { result.constants.now ≡ question.now.constants }
    ensures bounded { Bounded result.sizes }
{
    let sizes = Sizes {
        free: question.free,
        own: question.own,
        counts: question.counts,
        named: question.named,
        height: question_height(&question.constants, question.named),
    };
    Searchable {
        sizes,
        clauses,
        constants: &question.constants,
    }
}

// ---- deciding

// Decides satisfiability.
fn decide_satisfiability(
    question: &Searchable<'_>,
    firsts: &mut [Passing; FIRST_WORDS],
    leaves: &mut [Passing; LEAF_WORDS],
) -> Finding
    requires { Bounded question.now.sizes }
    ensures { DecidedAs satisfiability question.now result firsts.new leaves.new }
{
    if search::solve(question, Search::First, firsts, leaves) {
        Finding::Satisfied
    } else {
        Finding::Unsatisfied
    }
}

// Decides an entailment: one pass says everything but the first words of a solution that misses a disequation.
fn decide_entailment(
    question: &Searchable<'_>,
    firsts: &mut [Passing; FIRST_WORDS],
    leaves: &mut [Passing; LEAF_WORDS],
) -> Finding
    requires { Bounded question.now.sizes }
    ensures { DecidedAs entailment question.now result firsts.new leaves.new }
{
    match search::survey_leaves(question, firsts, leaves) {
        Survey::Unsolvable => Finding::Vacuous,
        Survey::Unmet => Finding::Unmet,
        Survey::Missed(j) => {
            search::solve(question, Search::Missed(j), firsts, leaves);
            Finding::Missed(j)
        }
        Survey::Entailed => Finding::Entailed,
    }
}

// Decides a question, whose kind is given, with a table for the first words of the solution to show.
// In the compiled code it stays apart from its caller: its tables are not on the stack while the question is read.
#[inline(never)]
pub fn decide(
    question: &Searchable<'_>,
    kind: Kind,
    firsts: &mut [Passing; FIRST_WORDS],
    leaves: &mut [Passing; LEAF_WORDS],
) -> Finding
    requires { Bounded question.now.sizes }
    ensures { (q : Asked) → Stands (kind_value kind) (posed question.now) q
        → question.now.sizes.height ≡ question_height q → Decided (posed question.now) q result firsts.new leaves.new }
{
    match kind {
        Kind::Satisfiability => decide_satisfiability(question, firsts, leaves),
        Kind::Entailment => decide_entailment(question, firsts, leaves),
    }
}

// ---- the solution that is shown

// Whether a solution is shown with a finding.
pub fn is_shown(finding: Finding) -> bool
    ensures { result ≡ shows (answer_of finding) }
{
    match finding {
        Finding::Satisfied | Finding::Unmet | Finding::Missed(_) => true,
        Finding::Unsatisfied | Finding::Vacuous | Finding::Entailed => false,
    }
}

// The search whose solution is shown with a finding.
fn search_of(finding: Finding) -> Search
    ensures { result ≡ search_of finding }
{
    match finding {
        Finding::Unmet => Search::Unmet,
        Finding::Missed(j) => Search::Missed(j),
        Finding::Satisfied | Finding::Unsatisfied | Finding::Vacuous | Finding::Entailed => {
            Search::First
        }
    }
}

// How many disequations a search has before the first system's.
fn extra_of(search: Search) -> usize
    ensures { result ≡ extra_of search }
{
    match search {
        Search::Unmet => 1,
        Search::First | Search::Missed(_) => 0,
    }
}

// How many sub-leaves a leaf has room for, where the first system has d disequations.
fn room_of(search: Search, d: usize) -> usize
    requires { d ≤ 31 }
    ensures { result ≡ room_of search d }
{
    match search {
        Search::First => d,
        Search::Unmet | Search::Missed(_) => d + 1,
    }
}

// What is to be planned of the solution that a search has.
fn outline(sizes: Sizes, search: Search) -> Outline
    requires { (q : Asked) × SizedFor sizes q }
    ensures { (q : Asked) → SizedFor sizes q → result ≡ outline_of q search }
{
    Outline {
        free: sizes.free,
        height: sizes.height,
        splits: plans::splits(room_of(search, sizes.counts[1])),
        extra: extra_of(search),
        count: sizes.counts[1],
    }
}

// The height given with a finding: that of the solution that is shown, 0 if none is.
pub fn height_given(sizes: Sizes, finding: Finding) -> usize
    requires { (q : Asked) × SizedFor sizes q }
    ensures { (q : Asked) → SizedFor sizes q → result ≡ height_given (question_height q) q (answer_of finding) }
{
    if !is_shown(finding) {
        return 0;
    }
    let outline = outline(sizes, search_of(finding));
    outline.height + outline.splits
}

// The plan of the solution that is shown with a finding.
pub fn plan(
    sizes: Sizes,
    finding: Finding,
    firsts: &[Passing; FIRST_WORDS],
    leaves: &[Passing; LEAF_WORDS],
) -> Plan
    requires decided_for { (q : Asked) × DecidedFor sizes finding firsts.now leaves.now q }
    requires t { T (shows (answer_of finding)) }
    ensures { (q : Asked) → DecidedFor sizes finding firsts.now leaves.now q → Planned q result }
{
    plans::plan_of(firsts, leaves, outline(sizes, search_of(finding)))
}
