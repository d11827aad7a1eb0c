// Whether the rows of a solution extend to the second system: each free choice that stands at a leaf of the rows is
// tried once with the values that the constants have there, beside all own choices, 64 at a time.
#![tactic(auto)]

ghost use Rattle.std.specs.Prelude.{◌≡◌, ◌&&◌, ◌||◌, not, List, ℕ, ◌+◌, ◌*◌, ◌/◌, ◌%◌, ◌^◌, ◌≤◌, ◌<◌, ltb, eqb, length};
ghost use Rattle.std.specs.Prelude.{get_or};
ghost use Rattle.std.specs.Bool.{beq};
ghost use Rattle.shares.specs.Below.{one};
ghost use Rattle.shares.specs.Constant.{bit, constant_levels};
ghost use Rattle.rows.specs.Rows.{row_count};
ghost use Rattle.words.specs.Choices.{word_count, values_at};
ghost use Rattle.words.specs.Table.{Terms, Within};
ghost use Rattle.steps.specs.Steps.{posed, PlacedWithin};
ghost use Rattle.unfolded.specs.Unfolded.{row_words};
ghost use Rattle.extending.specs.Extending.{choice_at, extends_in};
ghost use Rattle.extending.specs.Looks.{Added, BitOf, SameAs, Alike, alike, ChoicesLooked, LeavesLooked, InWord};
ghost use Rattle.extending.specs.Looks.{InWords, KeysOf};

use beside::Searchable;
use unfolded::TABLE_WORDS;

// Constants have this many levels.
const LEVELS: usize = 5;

// They have this many leaves, and each stands over half a word of a row.
const LEAVES: usize = 32;

// The free choice at a leaf of the rows, variable 0 the highest digit, and which leaves of a word have it.
#[derive(Clone, Copy)]
pub struct Same {
    pub choice: usize,
    pub leaves: u64,
}

// A choice with one digit more, the lowest.
fn with_digit(choice: usize, digit: bool) -> usize
    requires { choice < 2 ^ row_count }
    ensures { result ≡ 2 * choice + one digit }
{
    2 * choice + usize::from(digit)
}

// Where the bits of x have this value.
fn like(x: u64, digit: bool) -> u64
    ensures { (k : ℕ) → k < 64 → bit result k ≡ beq (bit x k) digit }
{
    if digit { x } else { !x }
}

// The choice at leaf 64 * w + i, and the leaves of word w among those given that have the same.
fn same_choice(table: &[u64; TABLE_WORDS], free: usize, w: usize, i: usize, leaves: u64) -> Same
    requires { (free ≤ row_count) × (w < row_words constant_levels) × (i < 64) }
    ensures { SameAs constant_levels table.now free w i leaves result }
{
    let mut choice: usize = 0;
    let mut same = leaves;
    for v in 0..free {
        let x = unfolded::word_of(table, v, w);
        let digit = basics::digit(x, i);
        choice = with_digit(choice, digit);
        same &= like(x, digit);
    }
    Same {
        choice,
        leaves: same,
    }
}

// Sets bit `choice` of a set of choices.
fn mark(present: &mut [u64; 64], choice: usize)
    requires { choice < 2 ^ row_count }
    ensures { Added (λ c. c) (λ c. c ≡ choice) present.old present.new }
{
    present[choice / 64] |= 1 << (choice % 64);
}

// Marks the choices at the given leaves of word w. Each turn takes out every leaf of one choice, so no iterator over
// the bits of the word fits.
fn mark_word(
    table: &[u64; TABLE_WORDS],
    free: usize,
    w: usize,
    leaves: u64,
    present: &mut [u64; 64],
)
    requires { (free ≤ row_count) × (w < row_words constant_levels) }
    ensures { Added (λ k. choice_at constant_levels table.now free (64 * w + k)) (BitOf leaves) present.old
        present.new }
{
    let mut rest = leaves;
    while rest != 0 {
        let same = same_choice(table, free, w, words::lowest(rest), rest);
        mark(present, same.choice);
        rest &= !same.leaves;
    }
}

// The leaves of the rows below leaf b of the constants, among the leaves of their word: half of it.
fn half(b: usize) -> u64
    ensures { (k : ℕ) → k < 64 → bit result k ≡ eqb (k / 32) (b % 2) }
{
    if b % 2 == 0 {
        0xFFFF_FFFF
    } else {
        0xFFFF_FFFF_0000_0000
    }
}

// Marks those below each leaf from b on where the constants have the values that they have at leaf b.
fn mark_alike(
    table: &[u64; TABLE_WORDS],
    free: usize,
    keys: &[u32; 64],
    b: usize,
    present: &mut [u64; 64],
)
    requires { (free ≤ row_count) × (b < 32) }
    ensures { Added (choice_at constant_levels table.now free) (Alike constant_levels keys.now b) present.old
        present.new }
{
    for a in b..LEAVES {
        if keys[a] == keys[b] {
            mark_word(table, free, a / 2, half(a), present);
        }
    }
}

// Takes bit j out of r, unless x and y are the same word.
fn unless_same(x: u64, y: u64, r: u64, j: usize) -> u64
    requires { j < 64 }
    ensures { (k : ℕ) → k < 64 → bit result k ≡ (bit r k && (not (eqb k j) || alike x y)) }
{
    if x == y {
        return r;
    }
    r & !(1 << j)
}

// The disequations that are still wanted: of those that were, the ones that every choice of x was left with.
fn still_wanted(x: u64, wanted: u64, left: &[u64; 32], count: usize) -> u64
    requires { count ≤ 32 }
    ensures { (j : ℕ) → j < 64 → bit result j ≡ (bit wanted j && (not (ltb j count) || alike x (get_or left.now j 0))) }
{
    let mut r = wanted;
    for (j, y) in left[..count].iter().enumerate() {
        r = unless_same(x, *y, r, j);
    }
    r
}

// What is still wanted once the given choices of word w are looked at, with the values that the table of terms has: bit
// j for each of the second system's disequations that no own choice so far meets beside its positive clauses. None if
// some free choice has no own choice that meets these.
fn look_word(
    question: &Searchable<'_>,
    terms: &mut [u64; 64],
    w: usize,
    choices: u64,
    wanted: u64,
) -> Option<u64>
    requires { w < word_count question.now.sizes.free }
    ensures { (values v : ℕ) → Terms question.now.sizes.free question.now.sizes.own values v terms.old
        → ((u : ℕ) × Terms question.now.sizes.free question.now.sizes.own values u terms.new)
        × ChoicesLooked (posed question.now) values (InWord w choices) wanted result }
{
    if choices == 0 {
        return Some(wanted);
    }
    let sizes = question.sizes;
    let x = beside::merge_word(choices, sizes.free);
    let mut left = [0u64; 32];
    words::move_terms(sizes.free, sizes.own, w, terms);
    let none = beside::missing(question, terms, w, x, wanted, &mut left);
    if none != 0 {
        return None;
    }
    Some(still_wanted(x, wanted, &left, sizes.counts[3]))
}

// What is still wanted once all choices of a set are looked at, with those values; None if some choice of it has no own
// choice.
fn look_words(
    question: &Searchable<'_>,
    terms: &mut [u64; 64],
    present: &[u64; 64],
    wanted: u64,
) -> Option<u64>
    ensures { (values v : ℕ) → Terms question.now.sizes.free question.now.sizes.own values v terms.old
        → ((u : ℕ) × Terms question.now.sizes.free question.now.sizes.own values u terms.new)
        × ChoicesLooked (posed question.now) values (InWords (word_count question.now.sizes.free) present.now) wanted
        result }
{
    let mut rest = wanted;
    for w in 0..words::word_count(question.sizes.free) {
        rest = look_word(question, terms, w, present[w], rest)?;
    }
    Some(rest)
}

// What is still wanted once the free choices below all leaves with the constants' values of leaf b are looked at; they
// are already if an earlier leaf has these.
fn look_leaf(
    question: &Searchable<'_>,
    table: &[u64; TABLE_WORDS],
    keys: &[u32; 64],
    b: usize,
    terms: &mut [u64; 64],
    wanted: u64,
) -> Option<u64>
    requires { (b < 32) × (question.now.sizes.named < 2 ^ 32) × Within question.now.sizes.named (get_or keys.now b 0)
        × PlacedWithin question.now.sizes.free question.now.sizes.own question.now.sizes.named terms.old }
    ensures placed_within { PlacedWithin question.now.sizes.free question.now.sizes.own question.now.sizes.named
        terms.new }
    ensures by_index { (start : ℕ) → KeysOf (posed question.now) keys.now
        → LeavesLooked (posed question.now) table.now b start (Some wanted)
        → LeavesLooked (posed question.now) table.now (b + 1) start result }
{
    if pass::first_like(keys, keys[b], b).is_some() {
        return Some(wanted);
    }
    let mut present = [0u64; 64];
    mark_alike(table, question.sizes.free, keys, b, &mut present);
    words::set_constants(u64::from(keys[b]), question.sizes.named, terms);
    look_words(question, terms, &present, wanted)
}

// The values of the constants that are named, at each leaf.
fn put_keys(constants: &[u64; 32], named: u64, keys: &mut [u32; 64])
    requires { named < 2 ^ 32 }
    ensures { (a : ℕ) → a < 2 ^ constant_levels
        → get_or keys.new a 0 ≡ values_at constant_levels constants.now named constant_levels a }
{
    for b in 0..LEAVES {
        keys[b] = words::values_at(constants, named, LEVELS, b);
    }
}

// Whether the rows of a table extend to the second system of a question, by own shares of any height.
pub fn extends(question: &Searchable<'_>, table: &[u64; TABLE_WORDS]) -> bool
    requires { question.now.sizes.named < 2 ^ 32 }
    ensures { result ≡ extends_in (posed question.now) table.now }
{
    let sizes = question.sizes;
    let mut terms = [0u64; 64];
    words::start_terms(sizes.free, sizes.own, &mut terms);
    let mut keys = [0u32; 64];
    put_keys(question.constants, sizes.named, &mut keys);
    let mut wanted: u64 = (1 << sizes.counts[3]) - 1;
    for b in 0..LEAVES {
        let Some(rest) = look_leaf(question, table, &keys, b, &mut terms, wanted) else {
            return false;
        };
        wanted = rest;
    }
    wanted == 0
}
