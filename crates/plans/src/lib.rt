// The plan of a solution that was found: which choice stands at each leaf, and at which sub-leaf each disequation
// stands with its own.
#![tactic(auto)]

ghost use Rattle.std.specs.Prelude.{◌≡◌, ℕ, ◌+◌, ◌-◌, ◌*◌, ◌/◌, ◌%◌, ◌^◌, ◌<◌, ◌≤◌, length, get_or, set};
ghost use Rattle.leaves.specs.Heights.{c};
ghost use Rattle.leaves.specs.Problem.{Problem};
ghost use Rattle.words.specs.Choices.{word_count};
ghost use Rattle.words.specs.Kept.{least_number, number_at};
ghost use Rattle.plans.specs.Pairs.{leaf_width, slot_of, Fitting, LeavesFit, PairsOf, Filled, Made};

use words::{FIRST_WORDS, LEAF_WORDS, Passing};

// A sub-leaf that holds another choice than its leaf does.
#[derive(Clone, Copy)]
pub struct Entry {
    // which sub-leaf, of 2^high
    pub subleaf: u16,
    // the choice that stands there
    pub choice: u16,
}

// Which choice of values stands at each sub-leaf of a shown solution. The value of a variable is one binary digit of a
// choice.
#[derive(Clone, Copy)]
pub struct Plan {
    // the height of the leaves
    pub low: usize,
    // the height given
    pub high: usize,
    // the choice at each leaf, of 2^low, wherever no other stands
    pub plain: [u16; 64],
    // how many sub-leaves hold another choice
    pub count: usize,
    // which they are: the first `count` of these
    pub entries: [Entry; 32],
}

// What is to be planned: a solution of n free variables at 2^height leaves, each of which is split `splits` times, with
// so many extra disequations before the first system's.
#[derive(Clone, Copy)]
pub struct Outline {
    pub free: usize,
    pub height: usize,
    pub splits: usize,
    pub extra: usize,
    pub count: usize,
}

// How often leaves are split so that each has room for n sub-leaves.
pub fn splits(n: usize) -> usize
    requires { n ≤ 32 }
    ensures { result ≡ c n }
{
    (0..5).find(|k| n <= basics::power(*k)).unwrap_or(5)
}

// The number of the entry that disequation e of a plan has in the table of first words.
fn slot_of(extra: usize, e: usize) -> usize
    requires { extra ≤ 1 }
    ensures { result ≡ slot_of extra e }
{
    if e < extra { 31 } else { e - extra }
}

// How many binary digits number the words of a leaf.
#[tactic(auto, unfolding(words::specs::Choices::word_count))]
fn word_digits(n: usize) -> usize
    requires { n ≤ 12 }
    ensures { (2 ^ result ≡ word_count n) × (result ≤ 6) }
{
    n.saturating_sub(6)
}

// The leaf of a word.
fn leaf_of(kept: Passing, free: usize) -> usize
    requires { free ≤ 12 }
    ensures { result ≡ least_number kept / leaf_width free }
{
    kept.word >> word_digits(free)
}

// The least choice in a word.
fn choice_of(kept: Passing, free: usize) -> u16
    requires { (free ≤ 12) × (least_number kept % leaf_width free < 2 ^ free) }
    ensures { result ≡ least_number kept % leaf_width free }
{
    let passing = Passing {
        word: kept.word & (basics::power(word_digits(free)) - 1),
        choices: kept.choices,
    };
    // with at most 12 digits it fits, and the error of `try_from` cannot be
    guesses::least_choice(passing, free) as u16
}

// The number of a leaf's sub-leaf with this rank.
fn sub_leaf(leaf: usize, splits: usize, rank: usize) -> u16
    requires { (leaf < 64) × (splits ≤ 5) × (rank ≤ 32) }
    ensures { result ≡ leaf * 2 ^ splits + rank }
{
    // at most 2,048, it fits, and the error of `try_from` cannot be
    ((leaf << splits) + rank) as u16
}

// Takes the next sub-leaf of a leaf: its rank is how many were taken there before.
fn take_rank(taken: &mut [u8; 64], leaf: usize) -> usize
    requires { (leaf < 64) × (get_or taken.old leaf 0 < 32) }
    ensures { (result ≡ get_or taken.old leaf 0) × (result < 32) × (taken.new ≡ set taken.old leaf (result + 1)) }
{
    let rank = taken[leaf];
    taken[leaf] += 1;
    usize::from(rank)
}

// The least choice of leaf b: that of the leaf before it, if it has the same word.
fn plain_at(leaves: &[Passing; LEAF_WORDS], b: usize, free: usize, plain: &[u16; 64]) -> u16
    requires b_bound { (b < 64) × (free ≤ 12) }
    requires b_bound_2 { (number_at leaves.now b < 2 ^ free)
        × (0 < b → get_or plain.now (b - 1) 0 ≡ number_at leaves.now (b - 1)) }
    ensures { result ≡ number_at leaves.now b }
{
    let kept = leaves[b];
    if b > 0 && leaves[b - 1] == kept {
        return plain[b - 1];
    }
    choice_of(kept, free)
}

// Puts the least choices of the first `count` leaves into the plan.
fn fill_plain(leaves: &[Passing; LEAF_WORDS], count: usize, free: usize, plain: &mut [u16; 64])
    requires { (count ≤ 64) × (free ≤ 12) × ((b : ℕ) → b < count → number_at leaves.now b < 2 ^ free) }
    ensures { (b : ℕ) → b < count → get_or plain.new b 0 ≡ number_at leaves.now b }
{
    for b in 0..count {
        plain[b] = plain_at(leaves, b, free, plain);
    }
}

// Gives each disequation its sub-leaf: from the left those of a leaf stand in order.
fn fill_entries(firsts: &[Passing; FIRST_WORDS], outline: Outline, entries: &mut [Entry; 32])
    requires fitting { Fitting outline firsts.now }
    ensures { Filled outline firsts.now (outline.extra + outline.count) entries.new }
{
    let mut taken = [0u8; 64];
    for e in 0..outline.extra + outline.count {
        let kept = firsts[slot_of(outline.extra, e)];
        let leaf = leaf_of(kept, outline.free);
        let rank = take_rank(&mut taken, leaf);
        entries[e] = Entry {
            subleaf: sub_leaf(leaf, outline.splits, rank),
            choice: choice_of(kept, outline.free),
        };
    }
}

// The plan of the solution that a table of first words and one of the leaves' least words hold.
pub fn plan_of(
    firsts: &[Passing; FIRST_WORDS],
    leaves: &[Passing; LEAF_WORDS],
    outline: Outline,
) -> Plan
    requires { Fitting outline firsts.now × LeavesFit outline leaves.now }
    ensures { (R : Problem ℕ) → R.count ≡ outline.extra + outline.count
        → PairsOf outline.free outline.height R outline.extra firsts.now leaves.now
        → Made outline.free outline.height R outline.splits result }
{
    let mut plain = [0u16; 64];
    let mut entries = [Entry {
        subleaf: 0,
        choice: 0,
    }; 32];
    fill_plain(
        leaves,
        basics::power(outline.height),
        outline.free,
        &mut plain,
    );
    fill_entries(firsts, outline, &mut entries);
    Plan {
        low: outline.height,
        high: outline.height + outline.splits,
        plain,
        count: outline.extra + outline.count,
        entries,
    }
}
