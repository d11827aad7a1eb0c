// One word of choices at a leaf: which of them a search allows, and what is kept of them.
#![tactic(auto)]

ghost use Rattle.std.specs.Prelude.{◌≡◌, List, ℕ, ◌+◌, ◌*◌, ◌<◌, get_or};
ghost use Rattle.shares.specs.Constant.{bit};
ghost use Rattle.words.specs.Choices.{word_count};
ghost use Rattle.words.specs.Kept.{number_at};
ghost use Rattle.words.specs.Table.{Terms};
ghost use Rattle.beside.specs.Beside.{SameFree};
ghost use Rattle.steps.specs.Tests.{leaf_values, first_meets, allowed_in, Named};
ghost use Rattle.steps.specs.Steps.{stored_by, posed, Tabled, Settled, Amid, Second};

use beside::Searchable;
use entries::Marks;
use words::{FIRST_WORDS, Passing};

// What is searched for. Closures in its place would need these three cases in their contracts.
#[derive(Clone, Copy)]
pub enum Search {
    // a solution of the first system
    First,
    // one with a leaf where no own choice meets the second system's positive clauses
    Unmet,
    // one with no leaf where an own choice meets them and this disequation of the second
    Missed(usize),
}

// What a pass has seen.
#[derive(Clone, Copy)]
pub struct Seen {
    // which searches have found a choice: bit i for disequation i of the first system, bit 31 for an unmet choice, bit
    // 32 for the least of this leaf
    pub met: u64,
    // which disequations of the second system every leaf so far has a choice that misses
    pub possible: u64,
    // which of them some choice of this leaf misses so far
    pub here: u64,
    // which of them there is still something to learn of at this leaf
    pub wanted: u64,
}

// A word of choices: what is searched for, the leaf, and the word of its choices.
#[derive(Clone, Copy)]
pub struct Spot {
    pub search: Search,
    pub leaf: usize,
    pub word: usize,
}

// Choices of a word that are allowed, its number in its leaf and its number among those of all leaves.
#[derive(Clone, Copy)]
pub struct Allowed {
    pub word: usize,
    pub turn: usize,
    pub choices: u64,
}

// Of the choices x of word w those beside which no own choice meets the second system's positive clauses and its
// disequation j.
fn missed_word(
    question: &Searchable<'_>,
    terms: &mut [u64; 64],
    j: usize,
    w: usize,
    x: u64,
    rows: &mut [u64; 96],
) -> u64
    requires { (w < word_count question.now.sizes.free) × (j < get_or question.now.sizes.counts 3 0)
        × SameFree question.now.sizes.free x }
    ensures { (values : ℕ) → Terms question.now.sizes.free question.now.sizes.own values w terms.old
        → ((i : ℕ) → i < 64 → bit x i ≡ first_meets (posed question.now) values (64 * w + i))
        → Terms question.now.sizes.free question.now.sizes.own values w terms.new
        × ((i : ℕ) → i < 64 → bit result i ≡ allowed_in (posed question.now) (Search.Missed j) values (64 * w + i)) }
{
    if x == 0 {
        return 0;
    }
    beside::missing(question, terms, w, x, 1 << j, rows);
    rows[j]
}

// The choices of word w that the first system's positive clauses allow.
fn first_word(question: &Searchable<'_>, terms: &[u64; 64], w: usize) -> u64
    requires { (w < word_count question.now.sizes.free)
        × Tabled question.now.sizes.free question.now.sizes.own w terms.now }
    ensures { SameFree question.now.sizes.free result
        × ((values : ℕ) → Terms question.now.sizes.free question.now.sizes.own values w terms.now → (i : ℕ) → i < 64
        → bit result i ≡ first_meets (posed question.now) values (64 * w + i)) }
{
    words::section_word(
        terms,
        question.clauses,
        0,
        question.sizes.counts[0],
        0xFFFF_FFFF_FFFF_FFFF,
    )
}

// The choices of word w that the search allows.
fn allowed_word(
    question: &Searchable<'_>,
    terms: &mut [u64; 64],
    search: Search,
    w: usize,
    rows: &mut [u64; 96],
) -> u64
    requires { (w < word_count question.now.sizes.free) × Named question.now.sizes.counts search
        × Tabled question.now.sizes.free question.now.sizes.own w terms.old }
    ensures by_index { (values : ℕ) → Terms question.now.sizes.free question.now.sizes.own values w terms.old
        → Terms question.now.sizes.free question.now.sizes.own values w terms.new
        × ((i : ℕ) → i < 64 → bit result i ≡ allowed_in (posed question.now) search values (64 * w + i)) }
    ensures same_free { search ≡ Search.Unmet → (SameFree question.now.sizes.free result × (rows.new ≡ rows.old)) }
{
    let x = first_word(question, terms, w);
    match search {
        Search::First | Search::Unmet => x,
        Search::Missed(j) => missed_word(question, terms, j, w, x, rows),
    }
}

// What the second system says of the choices that the first allows.
fn second_word(
    question: &Searchable<'_>,
    terms: &mut [u64; 64],
    at: Allowed,
    seen: Seen,
    firsts: &mut [Passing; FIRST_WORDS],
    rows: &mut [u64; 96],
) -> Seen
    requires { (at.word < word_count question.now.sizes.free) × SameFree question.now.sizes.free at.choices }
    ensures by_index { (values : ℕ) → Terms question.now.sizes.free question.now.sizes.own values at.word terms.old
        → Terms question.now.sizes.free question.now.sizes.own values at.word terms.new
        × ((constants : List ℕ) → ((i : ℕ) → i < 64
        → bit at.choices i ≡ first_meets (stored_by question.now.sizes question.now.clauses.now constants) values
        (64 * at.word + i)) → Settled (stored_by question.now.sizes question.now.clauses.now constants) seen rows.old
        → Second (stored_by question.now.sizes question.now.clauses.now constants) values at seen firsts.old rows.old
        result firsts.new rows.new) }
    ensures possible_value { (result.possible ≡ seen.possible)
        × ((k : ℕ) → (k ≡ 31 → ⊥) → bit result.met k ≡ bit seen.met k)
        × ((k : ℕ) → (k ≡ 31 → ⊥) → number_at firsts.new k ≡ number_at firsts.old k) }
{
    if basics::digit(seen.met, 31) {
        return seen;
    }
    let none = beside::missing(question, terms, at.word, at.choices, seen.wanted, rows);
    let met = entries::keep_word(31, at.turn, none, seen.met, firsts);
    if seen.wanted == 0 {
        return Seen { met, ..seen };
    }
    let counts = question.sizes.counts;
    let any = entries::fill_failing(terms, question.clauses, counts[1], at.choices, rows);
    let marks = Marks {
        here: seen.here,
        wanted: seen.wanted,
    };
    let more = entries::mark_all(rows, any, counts[1], counts[3], marks);
    Seen {
        met,
        here: more.here,
        wanted: more.wanted,
        ..seen
    }
}

// One word of a leaf.
pub fn pass_word(
    question: &Searchable<'_>,
    terms: &mut [u64; 64],
    spot: Spot,
    seen: Seen,
    firsts: &mut [Passing; FIRST_WORDS],
    rows: &mut [u64; 96],
) -> Seen
    requires { Named question.now.sizes.counts spot.search × (spot.leaf < 64)
        × (spot.word < word_count question.now.sizes.free)
        × Tabled question.now.sizes.free question.now.sizes.own spot.word terms.old }
    ensures by_index { (values : ℕ) → Terms question.now.sizes.free question.now.sizes.own values spot.word terms.old
        → Terms question.now.sizes.free question.now.sizes.own values spot.word terms.new }
    ensures by_index_2 { (h : ℕ) (constants : List ℕ)
        → Terms question.now.sizes.free question.now.sizes.own
        (leaf_values (stored_by question.now.sizes question.now.clauses.now constants) h spot.leaf) spot.word terms.old
        → Amid (stored_by question.now.sizes question.now.clauses.now constants) h spot.search spot.leaf spot.word seen
        firsts.old rows.old → Amid (stored_by question.now.sizes question.now.clauses.now constants) h spot.search
        spot.leaf (spot.word + 1) result firsts.new rows.new }
    ensures possible_value { result.possible ≡ seen.possible }
{
    let search = spot.search;
    let sizes = question.sizes;
    let x = allowed_word(question, terms, search, spot.word, rows);
    if x == 0 {
        return seen;
    }
    let turn = spot.leaf * words::word_count(sizes.free) + spot.word;
    let least = entries::keep_word(32, spot.word, x, seen.met, firsts);
    let met = entries::keep_all(
        terms,
        question.clauses,
        sizes.counts[1],
        turn,
        x,
        least,
        firsts,
    );
    let kept = Seen { met, ..seen };
    let at = Allowed {
        word: spot.word,
        turn,
        choices: x,
    };
    match search {
        Search::Unmet => second_word(question, terms, at, kept, firsts, rows),
        Search::First | Search::Missed(_) => kept,
    }
}
