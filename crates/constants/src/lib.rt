// Constants from tree text: a whole text is read as one tree, in one pass, and gives the tree's leaves as a number.
// What was read stands on a stack, an opening bracket or a tree an item; a closing bracket makes two trees and the
// bracket below them one.
#![tactic(auto)]

ghost use Rattle.std.specs.Prelude.{◌≡◌, List, [], ℕ, ◌+◌, ◌-◌, ◌%◌, ◌^◌, ◌≤◌, ◌<◌, max, length, get_or, set};
ghost use Rattle.std.proofs.Math.Option.{some};
ghost use Rattle.shares.specs.Tree.{Tree};
ghost use Rattle.shares.specs.Constant.{constant_levels};
ghost use Rattle.shares.specs.Text.{longest_text};
ghost use Rattle.constants.specs.FromText.{refusal_number, from_tree, from_text};
ghost use Rattle.constants.specs.Stacks.{Item, runs, Stacked, Stepped, pair_number, pair_item, equal_leaves, is_pair};
ghost use Rattle.constants.specs.Stacks.{leaf_scan, open_scan, close_scan, Of};

// A constant is no taller, and no text of one is longer.
const LEVELS: usize = 5;

const LONGEST_TEXT: usize = 94;

// Why a text gives no constant.
#[derive(Clone, Copy, PartialEq, Eq, Debug)]
pub enum NoConstant {
    NotTreeText,
    NotFolded,
    TooTall,
}

// The number of a refusal.
impl From<NoConstant> for u8 {
    ghost from_gives = { λ refusal number. number ≡ refusal_number refusal };

    fn from(refusal: NoConstant) -> u8 {
        match refusal {
            NoConstant::NotTreeText => 15,
            NoConstant::NotFolded => 16,
            NoConstant::TooTall => 17,
        }
    }
}

// What is told of a tree: its leaves as a number, its height, and whether it is folded.
#[derive(Clone, Copy)]
struct Told {
    leaves: u32,
    height: usize,
    folded: bool,
}

// What is told of a stack: how many items it has, how many pairs are open, the most that were open at once, and whether
// all its trees are folded.
#[derive(Clone, Copy)]
struct Scan {
    top: usize,
    pairs: usize,
    highest: usize,
    folded: bool,
}

// A bracket is kept as 0, a tree as the number of its leaves with a bit above it: this one for a leaf, the next for a
// pair.
const LEAF: u64 = 0x1_0000_0000;

const PAIR: u64 = 0x2_0000_0000;

// Entry k has a bit for each of 2^k leaves.
const FULL: [u64; 6] = [1, 3, 0xF, 0xFF, 0xFFFF, 0xFFFF_FFFF];

// The number of 2^levels full leaves.
fn full_leaves(levels: usize) -> u64
    requires { levels ≤ constant_levels }
    ensures { result ≡ 2 ^ (2 ^ levels) - 1 }
{
    FULL[levels]
}

// The levels that so many open pairs leave.
fn levels_below(pairs: usize) -> usize
    ensures { result ≡ constant_levels - pairs }
{
    LEVELS.saturating_sub(pairs)
}

// The leaves of a pair, from those of its halves: the right half's lie above the left half's.
#[tactic(auto, using(crate::specs::PairLaws::pair_number_lem, crate::specs::PairLaws::pair_room, crate::specs::PairLaws::scale_room), unfolding(crate::specs::Stacks::pair_number))]
fn pair_leaves(levels: usize, left: u64, right: u64) -> u64
    requires levels_le_constant_levels { levels ≤ constant_levels }
    requires left_bound { (left < 2 ^ (2 ^ (levels - 1))) × (right < 2 ^ (2 ^ (levels - 1))) }
    ensures { (result ≡ pair_number levels left right) × (result < 2 ^ 32) }
{
    if levels == 0 {
        return 0;
    }
    right * (full_leaves(levels - 1) + 1) + left
}

// The number of the leaves of a tree that is kept.
fn leaves_of(item: u64) -> u64
    ensures { (result ≡ item % 2 ^ (2 ^ constant_levels)) × (result < 2 ^ 32) }
{
    item % LEAF
}

// A leaf is put on the stack.
fn put_leaf(items: &mut [u64], scan: Scan, leaves: u64) -> Scan
    requires { (scan.top < length items.old) × (leaves < 2 ^ 32) }
    ensures scan { result ≡ leaf_scan scan }
    ensures items { items.new ≡ set items.old scan.top (2 ^ (2 ^ constant_levels) + leaves) }
{
    items[scan.top] = LEAF + leaves;
    Scan {
        top: scan.top + 1,
        ..scan
    }
}

// A pair is opened.
fn open_pair(items: &mut [u64], scan: Scan) -> Scan
    requires { (scan.top < length items.old) × (scan.pairs ≤ scan.top) }
    ensures scan { result ≡ open_scan scan }
    ensures items { items.new ≡ set items.old scan.top 0 }
{
    items[scan.top] = 0;
    let pairs = scan.pairs + 1;
    Scan {
        top: scan.top + 1,
        pairs,
        highest: scan.highest.max(pairs),
        folded: scan.folded,
    }
}

// Whether two trees are kept on top of a bracket.
#[tactic(auto, unfolding(crate::specs::Stacks::is_pair))]
fn is_pair(items: &[u64], top: usize) -> bool
    requires { top ≤ length items.now }
    ensures { result ≡ is_pair items.now top }
{
    top >= 3 && items[top - 1] != 0 && items[top - 2] != 0 && items[top - 3] == 0
}

// Whether two trees are equal leaves.
#[tactic(auto, unfolding(crate::specs::Stacks::equal_leaves))]
fn equal_leaves(left: u64, right: u64) -> bool
    ensures { result ≡ equal_leaves constant_levels left right }
{
    left == right && left < PAIR
}

// The number that a pair is kept as.
#[tactic(auto, unfolding(crate::specs::Stacks::pair_item))]
fn pair_item(levels: usize, left: u64, right: u64) -> u64
    requires levels_le_constant_levels { levels ≤ constant_levels }
    requires constant_levels_bound { (left % 2 ^ (2 ^ constant_levels) < 2 ^ (2 ^ (levels - 1)))
        × (right % 2 ^ (2 ^ constant_levels) < 2 ^ (2 ^ (levels - 1))) }
    ensures { result ≡ pair_item constant_levels levels left right }
{
    PAIR + pair_leaves(levels, leaves_of(left), leaves_of(right))
}

// What is told of a stack whose upper two trees became one, with the bracket below them.
fn closed_scan(scan: Scan, equal: bool) -> Scan
    requires { (2 ≤ scan.top) × (1 ≤ scan.pairs) }
    ensures { result ≡ close_scan equal scan }
{
    Scan {
        top: scan.top - 2,
        pairs: scan.pairs - 1,
        folded: scan.folded && !equal,
        ..scan
    }
}

// A pair is closed; none where no two trees stand on top of a bracket.
#[tactic(auto, using(crate::specs::StackedLaws::pair_sizes))]
fn close_pair(items: &mut [u64], scan: Scan) -> Option<Scan>
    requires { (σ : List Item) × Stacked constant_levels items.old scan σ × (length σ ≤ length items.old) }
    ensures { (σ : List Item) → Stacked constant_levels items.old scan σ → length σ ≤ length items.old
        → Stepped constant_levels items.new 0x29 σ result }
{
    if !is_pair(items, scan.top) {
        return None;
    }
    let left = items[scan.top - 2];
    let right = items[scan.top - 1];
    let next = closed_scan(scan, equal_leaves(left, right));
    items[next.top - 1] = pair_item(levels_below(next.pairs), left, right);
    Some(next)
}

// A sign more; none where it cannot stand there.
#[tactic(auto, using(crate::specs::StackedLaws::brackets_few, crate::specs::StackedLaws::onto_other))]
fn take_sign(items: &mut [u64], scan: Scan, sign: u8) -> Option<Scan>
    requires { (σ : List Item) × Stacked constant_levels items.old scan σ × (length σ < length items.old) }
    ensures { (σ : List Item) → Stacked constant_levels items.old scan σ → length σ < length items.old
        → Stepped constant_levels items.new sign σ result }
{
    match sign {
        b'(' => Some(open_pair(items, scan)),
        b'o' => Some(put_leaf(items, scan, 0)),
        b'*' => Some(put_leaf(items, scan, full_leaves(levels_below(scan.pairs)))),
        b')' => close_pair(items, scan),
        _ => None,
    }
}

// What a text gives that is the whole text of this tree.
fn from_told(told: Told) -> Result<u32, NoConstant>
    ensures { (t : Tree) → Of constant_levels t told → result ≡ from_tree constant_levels t }
{
    if !told.folded {
        return Err(NoConstant::NotFolded);
    }
    if told.height > LEVELS {
        return Err(NoConstant::TooTall);
    }
    Ok(told.leaves)
}

// What a whole text gives that left this stack. The leaves fit, and `try_from` would have an error that cannot be.
fn from_stack(scan: Scan, item: u64) -> Result<u32, NoConstant>
    ensures { (items : List ℕ) (σ : List Item) (s : List ℕ) → Stacked constant_levels items scan σ
        → item ≡ get_or items 0 0 → runs s (some []) ≡ some σ → length s ≤ longest_text constant_levels
        → result ≡ from_text constant_levels s }
{
    if scan.top != 1 || item == 0 {
        return Err(NoConstant::NotTreeText);
    }
    from_told(Told {
        leaves: leaves_of(item) as u32,
        height: scan.highest,
        folded: scan.folded,
    })
}

// What a text gives, of whatever length.
pub fn from_text(text: &[u8]) -> Result<u32, NoConstant>
    ensures { result ≡ from_text constant_levels text.now }
{
    if text.len() > LONGEST_TEXT {
        return Err(NoConstant::NotTreeText);
    }
    // An array, and not a vector of this capacity: a closing bracket puts the pair where its bracket lies.
    let mut items = [0u64; LONGEST_TEXT];
    let mut scan = Scan {
        top: 0,
        pairs: 0,
        highest: 0,
        folded: true,
    };
    for sign in text {
        let Some(next) = take_sign(&mut items, scan, *sign) else {
            return Err(NoConstant::NotTreeText);
        };
        scan = next;
    }
    from_stack(scan, items[0])
}
