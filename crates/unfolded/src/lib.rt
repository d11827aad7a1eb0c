// The rows of a solution and the constants of its question, unfolded to one height: 64 leaves to a word, 16 words to a
// part of a join. Word w of part t is entry 16 * t + w of a table.
#![tactic(auto)]

ghost use Rattle.std.specs.Prelude.{◌≡◌, true, ◌↔◌, ℕ, ◌+◌, ◌*◌, ◌^◌, ◌≤◌, ◌<◌, T, eqb, length};
ghost use Rattle.std.proofs.Math.ListN.{get_or};
ghost use Rattle.shares.specs.Constant.{constant_levels, bit};
ghost use Rattle.shares.specs.Parts.{full_part};
ghost use Rattle.rows.specs.Rows.{row_levels, row_count, row_leaf, answer_bytes};
ghost use Rattle.unfolded.specs.Unfolded.{row_words, Unfolded, join_way, join_at, join_failing, PartsIn, WordsOf};
ghost use Rattle.unfolded.specs.Unfolded.{ZeroBytes};
ghost use Rattle.unfolded.specs.Filling.{WordOf, Filled, constant_leaf, ConstantParts};

use basics::FULL_PART;
use format::LeafJoin;
use shares::Way;

// A row has this many words.
pub const ROW_WORDS: usize = 16;

// And this many leaves.
const ROW_LEAVES: usize = 1024;

// The rows of all variables have this many words.
const ROWS_WORDS: usize = 192;

// A table of 64 parts has this many.
pub const TABLE_WORDS: usize = 1024;

// The constants start at this word of a table, that of part 32.
const CONSTANTS_START: usize = 512;

// Word w of the rows: eight bytes, the lowest first.
fn word_at(rows: &[u8], w: usize) -> u64
    requires { 8 * w + 8 ≤ length rows.now }
    ensures { WordOf (row_leaf rows.now) w result }
{
    u64::from_le_bytes(rows[8 * w..8 * w + 8].try_into().unwrap())
}

// Whether the rows are zero from word `start` on. It stops at none: where all are zero, that is quicker than a test of
// each word.
pub fn zero_from(rows: &[u8], start: usize) -> bool
    requires { length rows.now ≡ answer_bytes constant_levels }
    ensures { T result ↔ ZeroBytes rows.now (8 * start) (length rows.now) }
{
    let mut all: u64 = 0;
    for w in start..ROWS_WORDS {
        all |= word_at(rows, w);
    }
    all == 0
}

// Puts the rows into the table, each as it lies.
fn put_rows(rows: &[u8], table: &mut [u64; TABLE_WORDS])
    requires { length rows.now ≡ answer_bytes constant_levels }
    ensures { Filled constant_levels 0 row_count (row_leaf rows.now) table.old table.new }
{
    for w in 0..ROWS_WORDS {
        table[w] = word_at(rows, w);
    }
}

// Puts the part that is always full into the table.
fn put_full(table: &mut [u64; TABLE_WORDS])
    ensures { Filled constant_levels full_part 1 (λ i. true) table.old table.new }
{
    let start = ROW_WORDS * usize::from(FULL_PART);
    table[start..start + ROW_WORDS].fill(u64::MAX);
}

// Word w of a constant: two of its leaves, each 32 times.
fn constant_word(x: u64, w: usize) -> u64
    requires { w < row_words constant_levels }
    ensures { WordOf (constant_leaf constant_levels x) w result }
{
    let low = words::spread(basics::digit(x, 2 * w)) >> 32;
    let high = words::spread(basics::digit(x, 2 * w + 1)) >> 32;
    high * 0x1_0000_0000 + low
}

// Puts the words of a constant into part 32 + c of the table.
fn put_constant(x: u64, c: usize, table: &mut [u64; TABLE_WORDS])
    requires { c < 32 }
    ensures { Filled constant_levels (32 + c) 1 (constant_leaf constant_levels x) table.old table.new }
{
    let start = CONSTANTS_START + ROW_WORDS * c;
    for w in 0..ROW_WORDS {
        table[start + w] = constant_word(x, w);
    }
}

// Puts the words of the constants that are named into the table.
fn put_constants(constants: &[u64; 32], named: u64, table: &mut [u64; TABLE_WORDS])
    requires { named < 2 ^ 32 }
    ensures { ConstantParts constant_levels named 0 constants.now table.old table.new }
{
    for c in words::bits(named) {
        put_constant(constants[c], c, table);
    }
}

// Fills a table that is empty.
pub fn unfold(rows: &[u8], constants: &[u64; 32], named: u64, table: &mut [u64; TABLE_WORDS])
    requires { (length rows.now ≡ answer_bytes constant_levels) × (named < 2 ^ 32)
        × ((k : ℕ) → get_or table.old k 0 ≡ 0) }
    ensures { Unfolded constant_levels rows.now constants.now named table.new }
{
    put_rows(rows, table);
    put_full(table);
    put_constants(constants, named, table);
}

// Word w of a part of a table.
pub fn word_of(table: &[u64; TABLE_WORDS], part: usize, w: usize) -> u64
    requires { (part < 64) × (w < row_words constant_levels) }
    ensures { result ≡ get_or table.now (row_words constant_levels * part + w) 0 }
{
    table[ROW_WORDS * part + w]
}

// A word of each part of a join.
#[derive(Clone, Copy)]
struct PartWords {
    first: u64,
    second: u64,
    sum: u64,
}

// Words w of the parts of a join.
fn part_words(table: &[u64; TABLE_WORDS], join: LeafJoin, w: usize) -> PartWords
    requires { PartsIn join × (w < row_words constant_levels) }
    ensures { WordsOf (row_words constant_levels) table.now join w result }
{
    PartWords {
        first: word_of(table, usize::from(join.first), w),
        second: word_of(table, usize::from(join.second), w),
        sum: word_of(table, usize::from(join.sum), w),
    }
}

// Bit i of the result is whether the test of a join holds at leaf 64 * w + i.
fn join_word(table: &[u64; TABLE_WORDS], join: LeafJoin, w: usize) -> u64
    requires { PartsIn join × (w < row_words constant_levels) }
    ensures { WordOf (join_at (row_words constant_levels) table.now join) w result }
{
    let parts = part_words(table, join, w);
    words::test_word(join.form, parts.first, parts.second, parts.sum)
}

// Whether the test of a join holds at every leaf.
pub fn everywhere(table: &[u64; TABLE_WORDS], join: LeafJoin) -> bool
    requires { PartsIn join }
    ensures { result ≡ eqb (join_failing constant_levels table.now join) (2 ^ row_levels constant_levels) }
{
    (0..ROW_WORDS).all(|w| join_word(table, join, w) == u64::MAX)
}

// The lowest leaf at which the test of a join does not hold, or the number of leaves. Where it holds at all,
// `everywhere` is quicker, so both stay.
pub fn first_failing(table: &[u64; TABLE_WORDS], join: LeafJoin) -> usize
    requires { PartsIn join }
    ensures { result ≡ join_failing constant_levels table.now join }
{
    for word in 0..ROW_WORDS {
        let holds = join_word(table, join, word);
        if holds != u64::MAX {
            return 64 * word + words::lowest(!holds);
        }
    }
    ROW_LEAVES
}

// How the test of a join comes out at a leaf.
pub fn way_at(table: &[u64; TABLE_WORDS], join: LeafJoin, leaf: usize) -> Way
    requires { PartsIn join × (leaf < 2 ^ row_levels constant_levels) }
    ensures { result ≡ join_way (row_words constant_levels) table.now join leaf }
{
    let parts = part_words(table, join, leaf / 64);
    let ways = words::ways_word(join.form, parts.first, parts.second, parts.sum);
    words::way_at(ways, leaf % 64)
}
