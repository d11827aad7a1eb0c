// What is kept of the words of choices that a pass goes over: for each of up to 33 searches the first word that has a
// choice for it, and for each disequation of the second system which disequations of the first were met.
#![tactic(auto)]

ghost use Rattle.std.specs.Prelude.{◌≡◌, ◌&&◌, ◌||◌, not, ℕ, ◌+◌, ◌*◌, ◌<◌, ◌≤◌, T, eqb, get_or};
ghost use Rattle.shares.specs.Constant.{bit};
ghost use Rattle.words.specs.Clause.{clause_test, Clauses};
ghost use Rattle.entries.specs.Entry.{Kept, KeptAll, common, InAny, Settling, Marked, MarkedAll};

use basics::{CLAUSE_BYTES, FIRST_DISEQUATIONS};
use words::{FIRST_WORDS, Passing};

// The rows of a leaf are so many words: of up to 32 disequations of the second system the choices left, of up to 32 of
// the first the choices in which they hold, and a mark for each of the second.
pub const ROWS: usize = 96;

// Keeps word number `turn` as that of search e, with the choices y in it that pass, if there are any and the search has
// found none yet.
pub fn keep_word(
    e: usize,
    turn: usize,
    y: u64,
    met: u64,
    firsts: &mut [Passing; FIRST_WORDS],
) -> u64
    requires { e < 33 }
    ensures { Kept e turn (bit y) met firsts.old result firsts.new }
{
    if basics::digit(met, e) {
        return met;
    }
    if y == 0 {
        return met;
    }
    firsts[e] = Passing {
        word: turn,
        choices: y,
    };
    met | (1 << e)
}

// Keeps the choices of x in which disequation i of the first system holds as those of search i, if there are any and it
// has found none yet.
fn keep_one(
    terms: &[u64; 64],
    clauses: &[u8; CLAUSE_BYTES],
    i: usize,
    turn: usize,
    x: u64,
    met: u64,
    firsts: &mut [Passing; FIRST_WORDS],
) -> u64
    requires i_bound { i < 33 }
    requires clauses { Clauses clauses.now (256 + 4 * i) 1 }
    ensures { Kept i turn (λ k. bit x k
        && not (clause_test clauses.now (λ t. bit (get_or terms.now t 0) k) (256 + 4 * i))) met firsts.old result
        firsts.new }
{
    let y = words::failing_word(terms, clauses, FIRST_DISEQUATIONS + 4 * i, x);
    keep_word(i, turn, y, met, firsts)
}

// Keeps for each disequation of the first system the choices of x in which it holds, if there are any and it has found
// none yet.
pub fn keep_all(
    terms: &[u64; 64],
    clauses: &[u8; CLAUSE_BYTES],
    count: usize,
    turn: usize,
    x: u64,
    met: u64,
    firsts: &mut [Passing; FIRST_WORDS],
) -> u64
    requires count_bound { count ≤ 31 }
    requires clauses { Clauses clauses.now 256 count }
    ensures { KeptAll count turn (λ i k. bit x k
        && not (clause_test clauses.now (λ t. bit (get_or terms.now t 0) k) (256 + 4 * i))) met firsts.old result
        firsts.new }
{
    let mut r = met;
    for i in words::bits(words::first_bits(!met, count)) {
        r = keep_one(terms, clauses, i, turn, x, r, firsts);
    }
    r
}

// Puts the choices of x in which disequation i of the first system holds into word 32 + i, and gives those in which any
// of them does.
pub fn fill_failing(
    terms: &[u64; 64],
    clauses: &[u8; CLAUSE_BYTES],
    count: usize,
    x: u64,
    rows: &mut [u64; ROWS],
) -> u64
    requires count_bound { count ≤ 32 }
    requires clauses { Clauses clauses.now 256 count }
    ensures by_index { (i : ℕ) → i < count → (k : ℕ) → k < 64 → bit (get_or rows.new (32 + i) 0) k
        ≡ (bit x k && not (clause_test clauses.now (λ t. bit (get_or terms.now t 0) k) (256 + 4 * i))) }
    ensures by_index_2 { (k : ℕ) → (32 ≤ k → 32 + count ≤ k) → get_or rows.new k 0 ≡ get_or rows.old k 0 }
    ensures in_any { InAny count result rows.new }
{
    let mut any: u64 = 0;
    for i in 0..count {
        let y = words::failing_word(terms, clauses, FIRST_DISEQUATIONS + 4 * i, x);
        rows[32 + i] = y;
        any |= y;
    }
    any
}

// Whether two words have a bit in common.
fn have_common(a: u64, b: u64) -> bool
    ensures { result ≡ common a b }
{
    a & b != 0
}

// Sets bit i of a mark, if two words have a bit in common.
fn mark_bit(a: u64, b: u64, i: usize, mark: u64) -> u64
    requires { i < 64 }
    ensures { (k : ℕ) → bit result k ≡ (bit mark k || (eqb k i && common a b)) }
{
    if have_common(a, b) {
        return mark | (1 << i);
    }
    mark
}

// Sets bit i of a mark for each i below `count` whose word 32 + i has a bit in common with word j.
fn mark_row(rows: &[u64; ROWS], j: usize, count: usize, mark: u64) -> u64
    requires { (j < 32) × (count ≤ 32) }
    ensures { (i : ℕ) → i < count
        → bit result i ≡ (bit mark i || common (get_or rows.now (32 + i) 0) (get_or rows.now j 0)) }
{
    let left = rows[j];
    let mut r = mark;
    for i in words::bits(words::first_bits(!mark, count)) {
        r = mark_bit(rows[32 + i], left, i, r);
    }
    r
}

// Mark j, which is word 64 + j, with bit i set for each i below `count` whose word 32 + i has a bit in common with word
// j. It is as it was where word j has no bit of any of them.
fn mark_of(rows: &[u64; ROWS], any: u64, j: usize, count: usize) -> u64
    requires { (j < 32) × (count ≤ 32) × InAny count any rows.now }
    ensures { (i : ℕ) → i < count
        → bit result i ≡ (bit (get_or rows.now (64 + j) 0) i
        || common (get_or rows.now (32 + i) 0) (get_or rows.now j 0)) }
{
    let mark = rows[64 + j];
    if have_common(any, rows[j]) {
        return mark_row(rows, j, count, mark);
    }
    mark
}

// What is known of the disequations of the second system at a leaf.
#[derive(Clone, Copy)]
pub struct Marks {
    // which of them some choice of the leaf misses so far
    pub here: u64,
    // which of them there is still something to learn of: no choice of the leaf misses it so far, or its mark is not
    // full
    pub wanted: u64,
}

// Takes bit j out of `wanted` if the first `count` bits of a mark are all set.
fn still_wanted(mark: u64, count: usize, wanted: u64, j: usize) -> u64
    requires { (j < 32) × (count ≤ 32) }
    ensures { Settling j count mark wanted result }
{
    if words::first_bits(!mark, count) != 0 {
        return wanted;
    }
    wanted & !(1 << j)
}

// If word j is not empty: sets bit j of `here`, and adds to mark j, which is word 64 + j, the disequations of the first
// system that have a choice in common with word j. Once its mark is full it is no longer wanted.
fn mark_one(rows: &mut [u64; ROWS], any: u64, count: usize, j: usize, marks: Marks) -> Marks
    requires { (j < 32) × (count ≤ 32) × T (bit marks.wanted j) × InAny count any rows.old }
    ensures { Marked j count marks.wanted marks.here rows.old result.wanted result.here rows.new }
{
    if rows[j] == 0 {
        return marks;
    }
    let mark = mark_of(rows, any, j, count);
    rows[64 + j] = mark;
    Marks {
        here: marks.here | (1 << j),
        wanted: still_wanted(mark, count, marks.wanted, j),
    }
}

// The same for each disequation of the second system that is wanted. `any` has the bits of the first system's words.
pub fn mark_all(
    rows: &mut [u64; ROWS],
    any: u64,
    first_count: usize,
    second_count: usize,
    marks: Marks,
) -> Marks
    requires { (first_count ≤ 32) × (second_count ≤ 32) × InAny first_count any rows.old }
    ensures { MarkedAll second_count first_count marks.wanted marks.here rows.old result.wanted result.here rows.new }
{
    let mut r = marks;
    for j in words::bits(words::first_bits(marks.wanted, second_count)) {
        r = mark_one(rows, any, first_count, j, r);
    }
    r
}
