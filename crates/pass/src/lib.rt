// One pass over the leaves of a question, and over the words of choices of each leaf that does not look like an earlier
// one: no set of choices is stored.
#![tactic(auto)]

ghost use Rattle.std.specs.Prelude.{◌≡◌, true, ℕ, ◌+◌, ◌*◌, ◌<◌, ◌≤◌, get_or, set, IfSome};
ghost use Rattle.words.specs.Choices.{word_count};
ghost use Rattle.words.specs.Table.{Terms, Within};
ghost use Rattle.beside.specs.Beside.{Bounded};
ghost use Rattle.steps.specs.Tests.{leaf_values, Named};
ghost use Rattle.steps.specs.Steps.{posed, Placed, PlacedWithin, Amid};
ghost use Rattle.pass.specs.Pass.{Done, After, Copied, Visited, Passed};

use beside::Searchable;
use steps::{Search, Seen, Spot};
use words::{FIRST_WORDS, LEAF_WORDS, Passing};

// A leaf: what is searched for, its number, the first of the leaves before it that looks like it, and the values of the
// constants there.
#[derive(Clone, Copy)]
pub struct Leaf {
    pub search: Search,
    pub number: usize,
    pub like: Option<usize>,
    pub values: u64,
}

// Whether nothing is sought any more at a leaf: its least choice and a pair for each of the first system's disequations
// are found, and so is an unmet choice where one is sought.
fn is_done(search: Search, met: u64, count: usize) -> bool
    requires { count ≤ 32 }
    ensures { result ≡ true → Done search met count }
{
    if !basics::digit(met, 32) {
        return false;
    }
    if words::first_bits(!met, count) != 0 {
        return false;
    }
    match search {
        Search::Unmet => basics::digit(met, 31),
        Search::First | Search::Missed(_) => true,
    }
}

// The words of a leaf, as long as anything is sought.
fn pass_words(
    question: &Searchable<'_>,
    terms: &mut [u64; 64],
    search: Search,
    number: usize,
    start: Seen,
    firsts: &mut [Passing; FIRST_WORDS],
    rows: &mut [u64; 96],
) -> Seen
    requires { Named question.now.sizes.counts search × (number < 64)
        × Placed question.now.sizes.free question.now.sizes.own terms.old }
    ensures by_index { (values v : ℕ) → Terms question.now.sizes.free question.now.sizes.own values v terms.old
        → (u : ℕ) × Terms question.now.sizes.free question.now.sizes.own values u terms.new }
    ensures by_index_2 { (h : ℕ) (v : ℕ)
        → Terms question.now.sizes.free question.now.sizes.own (leaf_values (posed question.now) h number) v terms.old
        → Amid (posed question.now) h search number 0 start firsts.old rows.old
        → Amid (posed question.now) h search number (word_count question.now.sizes.free) result firsts.new rows.new }
    ensures possible_value { result.possible ≡ start.possible }
{
    let sizes = question.sizes;
    let mut r = start;
    for w in 0..words::word_count(sizes.free) {
        if is_done(search, r.met, sizes.counts[1]) {
            return r;
        }
        words::move_terms(sizes.free, sizes.own, w, terms);
        let spot = Spot {
            search,
            leaf: number,
            word: w,
        };
        r = steps::pass_word(question, terms, spot, r, firsts, rows);
    }
    r
}

// All words of a leaf. The least of its choices stands in entry 32 while they are gone over, and then in the leaf's own
// entry of the table of leaves.
fn pass_leaf(
    question: &Searchable<'_>,
    terms: &mut [u64; 64],
    leaf: Leaf,
    seen: Seen,
    firsts: &mut [Passing; FIRST_WORDS],
    plains: &mut [Passing; LEAF_WORDS],
    rows: &mut [u64; 96],
) -> Seen
    requires { Named question.now.sizes.counts leaf.search × (leaf.number < 64)
        × Placed question.now.sizes.free question.now.sizes.own terms.old }
    ensures by_index { (values v : ℕ) → Terms question.now.sizes.free question.now.sizes.own values v terms.old
        → (u : ℕ) × Terms question.now.sizes.free question.now.sizes.own values u terms.new }
    ensures by_index_2 { (h : ℕ) (v : ℕ)
        → Terms question.now.sizes.free question.now.sizes.own (leaf_values (posed question.now) h leaf.number) v
        terms.old → After (posed question.now) h leaf.search leaf.number seen firsts.old plains.old rows.old
        → Visited (posed question.now) h leaf.search leaf.number result firsts.new plains.new rows.new }
{
    let start = Seen {
        met: seen.met & 0xFFFF_FFFF,
        possible: seen.possible,
        here: 0,
        wanted: seen.possible,
    };
    let r = pass_words(
        question,
        terms,
        leaf.search,
        leaf.number,
        start,
        firsts,
        rows,
    );
    plains[leaf.number] = firsts[32];
    Seen {
        met: r.met,
        possible: r.possible & r.here,
        here: 0,
        wanted: 0,
    }
}

// A leaf that looks like an earlier one has its least choice, and no other search finds anything there.
fn copy_leaf(number: usize, like: usize, seen: Seen, plains: &mut [Passing; LEAF_WORDS]) -> Seen
    requires { (like < number) × (number < 64) }
    ensures { Copied number like seen plains.old result plains.new }
{
    plains[number] = plains[like];
    Seen {
        met: seen.met | (1 << 32),
        possible: seen.possible,
        here: 0,
        wanted: 0,
    }
}

// One leaf more.
fn visit(
    question: &Searchable<'_>,
    terms: &mut [u64; 64],
    leaf: Leaf,
    seen: Seen,
    firsts: &mut [Passing; FIRST_WORDS],
    plains: &mut [Passing; LEAF_WORDS],
    rows: &mut [u64; 96],
) -> Seen
    requires { Named question.now.sizes.counts leaf.search × (leaf.number < 64)
        × IfSome leaf.like (λ a. a < leaf.number) × Bounded question.now.sizes
        × Within question.now.sizes.named leaf.values
        × PlacedWithin question.now.sizes.free question.now.sizes.own question.now.sizes.named terms.old }
    ensures placed_within { PlacedWithin question.now.sizes.free question.now.sizes.own question.now.sizes.named
        terms.new }
    ensures by_index { (h : ℕ) → leaf.values ≡ leaf_values (posed question.now) h leaf.number
        → IfSome leaf.like (λ a. leaf_values (posed question.now) h a ≡ leaf.values)
        → After (posed question.now) h leaf.search leaf.number seen firsts.old plains.old rows.old
        → Visited (posed question.now) h leaf.search leaf.number result firsts.new plains.new rows.new }
{
    if let Some(like) = leaf.like {
        return copy_leaf(leaf.number, like, seen, plains);
    }
    words::set_constants(leaf.values, question.sizes.named, terms);
    pass_leaf(question, terms, leaf, seen, firsts, plains, rows)
}

// The first of the first b leaves whose values are these.
pub fn first_like(keys: &[u32; 64], values: u32, b: usize) -> Option<usize>
    requires { b ≤ 64 }
    ensures { IfSome result (λ a. (a < b) × (get_or keys.now a 0 ≡ values)) }
{
    keys[..b].iter().position(|key| *key == values)
}

// A pass over all leaves, which ends early where a leaf has no choice. The rows are working space.
pub fn pass_leaves(
    question: &Searchable<'_>,
    search: Search,
    firsts: &mut [Passing; FIRST_WORDS],
    plains: &mut [Passing; LEAF_WORDS],
    rows: &mut [u64; 96],
) -> Seen
    requires named { Named question.now.sizes.counts search × ((k : ℕ) → get_or rows.old k 0 ≡ 0) }
    requires bounded { Bounded question.now.sizes }
    ensures { Passed (posed question.now) question.now.sizes.height search result firsts.new plains.new rows.new }
{
    let sizes = question.sizes;
    let mut terms = [0u64; 64];
    words::start_terms(sizes.free, sizes.own, &mut terms);
    let mut keys = [0u32; 64];
    let mut seen = Seen {
        met: 0,
        possible: (1 << sizes.counts[3]) - 1,
        here: 0,
        wanted: 0,
    };
    for b in 0..basics::power(sizes.height) {
        let values = words::values_at(question.constants, sizes.named, sizes.height, b);
        let like = first_like(&keys, values, b);
        keys[b] = values;
        let leaf = Leaf {
            search,
            number: b,
            like,
            values: u64::from(values),
        };
        seen = visit(question, &mut terms, leaf, seen, firsts, plains, rows);
        if !basics::digit(seen.met, 32) {
            return seen;
        }
    }
    seen
}
