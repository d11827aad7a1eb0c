// Beside one word of free choices: which of them no own choice meets the second system with. Own variables are the
// digits above the free ones, so that where there are fewer than six free variables a word holds own choices too.
#![tactic(auto)]

ghost use Rattle.std.specs.Prelude.{◌≡◌, ◌&&◌, not, ℕ, ◌+◌, ◌*◌, ◌%◌, ◌^◌, ◌<◌, ◌≤◌, T, length, get_or};
ghost use Rattle.shares.specs.Constant.{bit};
ghost use Rattle.words.specs.Clause.{clause_test};
ghost use Rattle.words.specs.Choices.{word_count};
ghost use Rattle.words.specs.Table.{Terms};
ghost use Rattle.beside.specs.Beside.{Merged, Shared, SameFree, Taken, TakenAll, SweptAll, Missing, Readable};

use basics::{CLAUSE_BYTES, SECOND_DISEQUATIONS, SECOND_POSITIVES};

// The numbers of a question.
#[derive(Clone, Copy)]
pub struct Sizes {
    // how many free variables, and how many own variables of the second system
    pub free: usize,
    pub own: usize,
    // how many clauses each section has: the first system's positive clauses and disequations, then the second's
    pub counts: [usize; 4],
    // which constants some clause names, constant i at bit i
    pub named: u64,
    // the height of the question: that of the tallest of these
    pub height: usize,
}

// A question that can be searched: its numbers, and its clauses and constants where they are stored.
#[derive(Clone, Copy)]
pub struct Searchable<'a> {
    pub sizes: Sizes,
    pub clauses: &'a [u8; CLAUSE_BYTES],
    pub constants: &'a [u64; 32],
    pub ghost readable: { Readable clauses.now sizes.counts sizes.free sizes.own },
}

// The word turned by k bits: bit i of the result is bit i + k of x, counted round.
fn turned(x: u64, k: usize) -> u64
    requires { (0 < k) × (k < 64) }
    ensures { (i : ℕ) → i < 64 → bit result i ≡ bit x ((i + k) % 64) }
{
    (x >> k) | (x << (64 - k))
}

// Each bit of the result is set where some bit of x is whose number has the same low n digits.
pub fn merge_word(x: u64, n: usize) -> u64
    ensures { Merged n x result }
{
    let mut r = x;
    for p in n..6 {
        r |= turned(r, 1 << p);
    }
    r
}

// Each bit of the result is set where all bits of x are whose numbers have the same low n digits.
fn share_word(x: u64, n: usize) -> u64
    ensures { Shared n x result }
{
    !merge_word(!x, n)
}

// The same of each word.
fn share_words(words: &mut [u64], n: usize)
    ensures { (j : ℕ) → j < length words.old → Shared n (get_or words.old j 0) (get_or words.new j 0) }
{
    if 6 <= n {
        return;
    }
    for word in words.iter_mut() {
        *word = share_word(*word, n);
    }
}

// How many words of choices stand beside each word of free ones.
fn own_words(n: usize, m: usize) -> usize
    requires { n + m ≤ 12 }
    ensures { result * word_count n ≡ word_count (n + m) }
{
    if n < 6 {
        return words::word_count(n + m);
    }
    basics::power(m)
}

// Takes the choices of y in which disequation j of the second system holds out of word j, which is wanted. Bit j of
// `wanted` stays set only if some choice is left.
fn take_one(
    question: &Searchable<'_>,
    terms: &[u64; 64],
    y: u64,
    wanted: u64,
    j: usize,
    left: &mut [u64],
) -> u64
    requires { (j < get_or question.now.sizes.counts 3 0) × (32 ≤ length left.old) × T (bit wanted j) }
    ensures { Taken j (λ i. bit y i
        && not (clause_test question.now.clauses.now (λ t. bit (get_or terms.now t 0) i) (640 + 4 * j))) wanted left.old
        result left.new }
{
    let z = left[j] & !words::failing_word(terms, question.clauses, SECOND_DISEQUATIONS + 4 * j, y);
    left[j] = z;
    if z == 0 {
        return wanted & !(1 << j);
    }
    wanted
}

// The same of each j whose bit of `wanted` is set.
fn take_all(
    question: &Searchable<'_>,
    terms: &[u64; 64],
    y: u64,
    wanted: u64,
    left: &mut [u64],
) -> u64
    requires { 32 ≤ length left.old }
    ensures { TakenAll (get_or question.now.sizes.counts 3 0) (λ j i. bit y i
        && not (clause_test question.now.clauses.now (λ t. bit (get_or terms.now t 0) i) (640 + 4 * j))) wanted left.old
        result left.new }
{
    if y == 0 {
        return wanted;
    }
    let mut r = wanted;
    for j in words::bits(words::first_bits(wanted, question.sizes.counts[3])) {
        r = take_one(question, terms, y, r, j, left);
    }
    r
}

// Goes over the words beside word w: the result has the choices of x that meet the second system's positive clauses in
// none of them, and word j, for each j whose bit of `wanted` is set, those of x that meet them and disequation j in
// none. Stops as soon as no choice is left anywhere.
fn sweep(
    question: &Searchable<'_>,
    terms: &mut [u64; 64],
    w: usize,
    x: u64,
    wanted: u64,
    left: &mut [u64],
) -> u64
    requires w_bound { (w < word_count question.now.sizes.free) × (32 ≤ length left.old)
        × ((j : ℕ) → j < get_or question.now.sizes.counts 3 0 → get_or left.old j 0 ≡ x) }
    ensures by_index { (values : ℕ) → Terms question.now.sizes.free question.now.sizes.own values w terms.old
        → SweptAll question.now.clauses.now question.now.sizes.counts question.now.sizes.free question.now.sizes.own
        values w x wanted result terms.new left.new }
    ensures by_index_2 { (k : ℕ) → 32 ≤ k → get_or left.new k 0 ≡ get_or left.old k 0 }
{
    let sizes = question.sizes;
    let words = words::word_count(sizes.free);
    let total = own_words(sizes.free, sizes.own);
    let mut none = x;
    let mut going = wanted;
    for o in 0..total {
        if none == 0 && going == 0 {
            return 0;
        }
        words::move_terms(sizes.free, sizes.own, o * words + w, terms);
        let y = words::section_word(
            terms,
            question.clauses,
            SECOND_POSITIVES,
            sizes.counts[2],
            x,
        );
        none &= !y;
        going = take_all(question, terms, y, going, left);
    }
    none
}

// The choices of x, of word w, beside which no own choice meets the second system's positive clauses. Word j of `left`,
// for each j whose bit of `wanted` is set, becomes those beside which none meets them and disequation j; words from 32
// on stay as they are.
pub fn missing(
    question: &Searchable<'_>,
    terms: &mut [u64; 64],
    w: usize,
    x: u64,
    wanted: u64,
    left: &mut [u64],
) -> u64
    requires w_bound { (w < word_count question.now.sizes.free) × (32 ≤ length left.old)
        × SameFree question.now.sizes.free x }
    ensures by_index { (values : ℕ) → Terms question.now.sizes.free question.now.sizes.own values w terms.old
        → Terms question.now.sizes.free question.now.sizes.own values w terms.new
        × Missing question.now.clauses.now question.now.sizes.counts question.now.sizes.free question.now.sizes.own
        values w x wanted result left.new }
    ensures by_index_2 { (k : ℕ) → 32 ≤ k → get_or left.new k 0 ≡ get_or left.old k 0 }
{
    let sizes = question.sizes;
    let count = sizes.counts[3];
    left[..count].fill(x);
    let none = sweep(question, terms, w, x, wanted, left);
    words::move_terms(sizes.free, sizes.own, w, terms);
    share_words(&mut left[..count], sizes.free);
    share_word(none, sizes.free)
}
