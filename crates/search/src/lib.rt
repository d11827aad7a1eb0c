// What a pass over the leaves finds: whether a search has a solution, and the first words of it.
#![tactic(auto)]

ghost use Rattle.std.specs.Prelude.{◌≡◌, ◌<◌, ◌≤◌};
ghost use Rattle.shares.specs.Below.{every_below};
ghost use Rattle.shares.specs.Constant.{bit};
ghost use Rattle.beside.specs.Beside.{Bounded};
ghost use Rattle.steps.specs.Tests.{Named, extra_of};
ghost use Rattle.steps.specs.Steps.{posed};
ghost use Rattle.search.specs.Found.{all_found, is_missed, LowestOf, SolvedAs, SurveyedAs};

use beside::Searchable;
use steps::Search;
use words::{FIRST_WORDS, LEAF_WORDS, Passing};

// What a pass over an entailment finds.
#[derive(Clone, Copy)]
pub enum Survey {
    // the first system has no solution
    Unsolvable,
    // some solution of the first cannot meet the second system's positive clauses
    Unmet,
    // each solution can, and some cannot have this disequation of the second beside them: it is the lowest such
    Missed(usize),
    // each solution can have all of the second
    Entailed,
}

// Whether the first `count` bits of a word are all set.
fn all_set(x: u64, count: usize) -> bool
    requires { count ≤ 64 }
    ensures { result ≡ every_below count (bit x) }
{
    count <= words::lowest(!x)
}

// Whether every leaf has found a choice, bit 32, and each of the first system's disequations a pair.
fn all_found(met: u64, count: usize) -> bool
    requires { count ≤ 32 }
    ensures { result ≡ all_found count met }
{
    basics::digit(met, 32) && all_set(met, count)
}

// Whether disequation j of the second system is possible, and each of the first system's is met with it.
fn is_missed(possible: u64, rows: &[u64; 96], count: usize, j: usize) -> bool
    requires { (count ≤ 32) × (j < 32) }
    ensures { result ≡ is_missed possible rows.now count j }
{
    basics::digit(possible, j) && all_set(rows[64 + j], count)
}

// The lowest disequation of the second system that is missed.
fn lowest_missed(
    possible: u64,
    rows: &[u64; 96],
    first_count: usize,
    second_count: usize,
) -> Option<usize>
    requires { (first_count ≤ 32) × (second_count ≤ 32) }
    ensures { LowestOf second_count (is_missed possible rows.now first_count) result }
{
    (0..second_count).find(|j| is_missed(possible, rows, first_count, *j))
}

// Whether the problem of a search is solvable, and then the first words of its solution.
pub fn solve(
    question: &Searchable<'_>,
    search: Search,
    firsts: &mut [Passing; FIRST_WORDS],
    leaves: &mut [Passing; LEAF_WORDS],
) -> bool
    requires named { Named question.now.sizes.counts search × (extra_of search ≡ 0) }
    requires bounded { Bounded question.now.sizes }
    ensures { SolvedAs (posed question.now) question.now.sizes.height search result firsts.new leaves.new }
{
    let mut rows = [0u64; 96];
    let seen = pass::pass_leaves(question, search, firsts, leaves, &mut rows);
    all_found(seen.met, question.sizes.counts[1])
}

// Surveys an entailment, with the first words of a solution that has an unmet choice, if there is one.
pub fn survey_leaves(
    question: &Searchable<'_>,
    firsts: &mut [Passing; FIRST_WORDS],
    leaves: &mut [Passing; LEAF_WORDS],
) -> Survey
    requires { Bounded question.now.sizes }
    ensures { SurveyedAs (posed question.now) question.now.sizes.height result firsts.new leaves.new }
{
    let counts = question.sizes.counts;
    let mut rows = [0u64; 96];
    let seen = pass::pass_leaves(question, Search::Unmet, firsts, leaves, &mut rows);
    if !all_found(seen.met, counts[1]) {
        return Survey::Unsolvable;
    }
    if basics::digit(seen.met, 31) {
        return Survey::Unmet;
    }
    match lowest_missed(seen.possible, &rows, counts[1], counts[3]) {
        Some(j) => Survey::Missed(j),
        None => Survey::Entailed,
    }
}
