// Clauses at one leaf for 64 choices of Boolean values at a time: bit i of word w is choice 64 * w + i.
#![tactic(auto)]

ghost use Rattle.std.specs.Prelude.{◌≡◌, ◌&&◌, not, ℕ, ◌+◌, ◌-◌, ◌*◌, ◌^◌, ◌<◌, ◌≤◌, eqb, ltb, get_or};
ghost use Rattle.shares.specs.Below.{first_below};
ghost use Rattle.shares.specs.Constant.{constant_levels, bit};
ghost use Rattle.words.specs.Clause.{test_way, test_value, WaysOf, clause_test, all_clauses, position, Clauses};
ghost use Rattle.words.specs.Choices.{word_count, values_at};
ghost use Rattle.words.specs.Table.{Terms, Changed, Within};
ghost use Rattle.words.specs.SetBits.{LowestFirst};
ghost use Rattle.std.specs.Iterator.{at_most};

use basics::{CLAUSE_BYTES, FULL_PART};
use shares::Way;

// A word of choices in which some pass: its number, and the bits of those that do. In no word before it any do.
#[derive(Clone, Copy, PartialEq, Eq)]
pub struct Passing {
    pub word: usize,
    pub choices: u64,
}

impl Passing {
    // What stands in a table before a word is kept.
    pub const NONE: Passing = Passing {
        word: 0,
        choices: 0,
    };
}

// A table of first words has one for each search. There are up to 33 searches: one for each of the first system's
// disequations, one for an unmet choice and one for the least of a leaf.
pub const FIRST_WORDS: usize = 33;

// A table of the leaves' least words has one for each of up to 64 leaves.
pub const LEAF_WORDS: usize = 64;

// `as` converts between usize and u64, which From does not, and cuts a u64 to a u32 that it fits, where `try_from`
// would have an error that cannot be.

// The word of the part whose number is byte `at`.
fn term_word(terms: &[u64; 64], clauses: &[u8; CLAUSE_BYTES], at: usize) -> u64
    requires { (at < 768) × (get_or clauses.now at 0 < 64) }
    ensures { result ≡ get_or terms.now (get_or clauses.now at 0) 0 }
{
    terms[usize::from(clauses[at])]
}

// How a test comes out at 64 leaves: those where the parts overlap, those with a surplus, and those with a shortfall.
// It holds at the others.
#[derive(Clone, Copy)]
pub struct Ways {
    pub overlap: u64,
    pub surplus: u64,
    pub shortfall: u64,
}

// Bit i of each of the three words is set where the test with this form comes out so at the bits i of a, b and c; their
// union, where it fails.
pub fn ways_word(form: u8, a: u64, b: u64, c: u64) -> Ways
    ensures { WaysOf form a b c result }
{
    let overlap = a & b;
    if form == 0 {
        let unlike = ((a | b) ^ c) & !overlap;
        return Ways {
            overlap,
            surplus: unlike & !c,
            shortfall: unlike & c,
        };
    }
    Ways {
        overlap,
        surplus: 0,
        shortfall: 0,
    }
}

// Bit i of the result says that the test with this form holds at the bits i of a, b and c: it fails in none of the
// three ways.
pub fn test_word(form: u8, a: u64, b: u64, c: u64) -> u64
    ensures { (i : ℕ) → i < 64 → bit result i ≡ test_value form (bit a i) (bit b i) (bit c i) }
{
    let ways = ways_word(form, a, b, c);
    !((ways.surplus | ways.shortfall) | ways.overlap)
}

// How the test comes out at leaf i.
pub fn way_at(ways: Ways, i: usize) -> Way
    requires { i < 64 }
    ensures { (form a b c : ℕ) → WaysOf form a b c ways → result ≡ test_way form (bit a i) (bit b i) (bit c i) }
{
    if basics::digit(ways.overlap, i) {
        return Way::Overlap;
    }
    if basics::digit(ways.surplus, i) {
        return Way::Surplus;
    }
    if basics::digit(ways.shortfall, i) {
        return Way::Shortfall;
    }
    Way::Holds
}

// Bit i of the result is the test of the clause at byte `at`, where part t has bit i of terms[t] for its value.
pub fn clause_word(terms: &[u64; 64], clauses: &[u8; CLAUSE_BYTES], at: usize) -> u64
    requires { Clauses clauses.now at 1 }
    ensures { (i : ℕ) → i < 64 → bit result i ≡ clause_test clauses.now (λ t. bit (get_or terms.now t 0) i) at }
{
    let a = term_word(terms, clauses, at + 1);
    let b = term_word(terms, clauses, at + 2);
    let c = term_word(terms, clauses, at + 3);
    test_word(clauses[at], a, b, c)
}

// The bits of x at which the clause at byte `at` fails, where part t has bit i of terms[t] for its value.
pub fn failing_word(terms: &[u64; 64], clauses: &[u8; CLAUSE_BYTES], at: usize, x: u64) -> u64
    requires { Clauses clauses.now at 1 }
    ensures { (i : ℕ) → i < 64 → bit result i
        ≡ (bit x i && not (clause_test clauses.now (λ t. bit (get_or terms.now t 0) i) at)) }
{
    x & !clause_word(terms, clauses, at)
}

// The bits of x at which all clauses of the section pass, where part t has bit i of terms[t] for its value.
pub fn section_word(
    terms: &[u64; 64],
    clauses: &[u8; CLAUSE_BYTES],
    start: usize,
    count: usize,
    x: u64,
) -> u64
    requires { Clauses clauses.now start count }
    ensures { (i : ℕ) → i < 64 → bit result i
        ≡ (bit x i && all_clauses clauses.now (λ t. bit (get_or terms.now t 0) i) start count) }
{
    let mut r = x;
    for k in 0..count {
        if r == 0 {
            return 0;
        }
        r &= clause_word(terms, clauses, start + 4 * k);
    }
    r
}

// The values at leaf number `leaf` of the constants that are named, constant i at bit i.
fn leaf_values(constants: &[u64; 32], named: u64, leaf: usize) -> u64
    requires { (named < 2 ^ 32) × (leaf < 64) }
    ensures { (i : ℕ) → bit result i ≡ (bit named i && bit (get_or constants.now i 0) leaf) }
{
    let mut r: u64 = 0;
    for i in bits(named) {
        r |= ((constants[i] >> leaf) & 1) << i;
    }
    r
}

// The values of the constants that are named at leaf b of 2^h.
pub fn values_at(constants: &[u64; 32], named: u64, h: usize, b: usize) -> u32
    requires { (named < 2 ^ 32) × (h ≤ 5) × (b < 2 ^ h) }
    ensures { result ≡ values_at constant_levels constants.now named h b }
{
    leaf_values(constants, named, b * (1 << (5 - h))) as u32
}

// All ones where b is set, else 0.
pub fn spread(b: bool) -> u64
    ensures { (i : ℕ) → i < 64 → bit result i ≡ b }
{
    if b { 0xFFFF_FFFF_FFFF_FFFF } else { 0 }
}

// Entry p has bit i set where digit p of i is set.
const DIGITS: [u64; 6] = [
    0xAAAA_AAAA_AAAA_AAAA,
    0xCCCC_CCCC_CCCC_CCCC,
    0xF0F0_F0F0_F0F0_F0F0,
    0xFF00_FF00_FF00_FF00,
    0xFFFF_0000_FFFF_0000,
    0xFFFF_FFFF_0000_0000,
];

// Digit p of each of the 64 choices of word w.
fn digit_word(p: usize, w: usize) -> u64
    requires { p < 12 }
    ensures { (i : ℕ) → i < 64 → bit result i ≡ bit (64 * w + i) p }
{
    if p < 6 {
        return DIGITS[p];
    }
    spread(basics::digit(w as u64, p - 6))
}

// The variable that has digit p. A variable is found from its digit as the digit is from the variable.
fn variable_at(n: usize, m: usize, p: usize) -> usize
    requires { (n + m ≤ 12) × (p < n + m) }
    ensures { (result < n + m) × (position n m result ≡ p) }
{
    if p < n {
        return n - 1 - p;
    }
    2 * n + m - 1 - p
}

// Puts the words of the constants that are named into the table of terms, in place of those of other values.
pub fn set_constants(values: u64, named: u64, terms: &mut [u64; 64])
    requires { named < 2 ^ 32 }
    ensures { (n m old w : ℕ) → n + m ≤ 12 → Within named old → Within named values → Terms n m old w terms.old
        → Terms n m values w terms.new }
{
    for i in bits(named) {
        terms[32 + i] = spread(basics::digit(values, i));
    }
}

// Puts the words at w of the variables with digit `from` or above into the table.
fn set_variables(n: usize, m: usize, from: usize, w: usize, terms: &mut [u64; 64])
    requires { n + m ≤ 12 }
    ensures { Changed n m from w terms.old terms.new }
{
    for p in from..n + m {
        let t = variable_at(n, m, p);
        terms[t] = digit_word(p, w);
    }
}

// Makes the table of terms at word 0 of a table that is empty, where all constants are 0. The part that is always full
// has its word from here on.
pub fn start_terms(n: usize, m: usize, terms: &mut [u64; 64])
    requires { (n + m ≤ 12) × ((t : ℕ) → t < 64 → get_or terms.old t 0 ≡ 0) }
    ensures { Terms n m 0 0 terms.new }
{
    set_variables(n, m, 0, 0, terms);
    terms[usize::from(FULL_PART)] = spread(true);
}

// Takes the table of terms from any word to word w: only the digits above the sixth change.
pub fn move_terms(n: usize, m: usize, w: usize, terms: &mut [u64; 64])
    requires { n + m ≤ 12 }
    ensures { (values v : ℕ) → Terms n m values v terms.old → Terms n m values w terms.new }
{
    set_variables(n, m, 6, w, terms);
}

// The number of the lowest bit of x that is set, or 64.
pub fn lowest(x: u64) -> usize
    ensures { result ≡ first_below 64 (bit x) }
{
    x.trailing_zeros() as usize
}

// A word that is not 0, without its lowest bit that is set.
pub fn without_lowest(x: u64) -> u64
    requires { 0 < x }
    ensures { (result ≤ x) × ((k : ℕ) → bit result k ≡ (bit x k && not (eqb k (first_below 64 (bit x))))) }
{
    x & (x - 1)
}

// The numbers of the bits of a word that are set, the lowest first.
#[derive(Drop)]
pub struct SetBits {
    pub rest: u64,
}

impl Iterator for SetBits {
    type Item = usize;

    ghost next_gives = { LowestFirst };

    ghost remaining = { λ b. at_most b.rest };

    fn next(&mut self) -> Option<usize> {
        if self.rest == 0 {
            return None;
        }
        let i = lowest(self.rest);
        self.rest = without_lowest(self.rest);
        Some(i)
    }
}

// The numbers of the bits of x that are set.
pub fn bits(x: u64) -> SetBits
    ensures { result.rest ≡ x }
{
    SetBits { rest: x }
}

// The first `count` bits of x.
pub fn first_bits(x: u64, count: usize) -> u64
    requires { count ≤ 32 }
    ensures { (result < 2 ^ 32) × ((k : ℕ) → bit result k ≡ (ltb k count && bit x k)) }
{
    x & ((1 << count) - 1)
}

// How many words hold 2^d choices.
pub fn word_count(d: usize) -> usize
    requires { d ≤ 12 }
    ensures { result ≡ word_count d }
{
    1 << d.saturating_sub(6)
}
