// Constants are shares of 32 leaves, held in one number with leaf i at bit i: their join and their height, both without
// a loop.
#![tactic(auto)]

ghost use Rattle.std.specs.Prelude.{◌≡◌, cond, ◌+◌, ◌^◌, eqb, None, Some};
ghost use Rattle.shares.specs.Tree.{height, way_number, join};
ghost use Rattle.shares.specs.Constant.{constant_levels, number_tree, set_in_both};
ghost use Rattle.shares.specs.Unlike as Unlike;
ghost use Rattle.shares.specs.Answer.{join_of};

// The join of two constants, all leaves at once: none, where it is undefined, exactly where some bit is set in both,
// and otherwise their sum.
#[tactic(auto, using(crate::proofs::ConstantLaws::sum_fits))]
pub fn join_constants(a: u32, b: u32) -> Option<u32>
    ensures tree { join_of constant_levels result
        ≡ join (number_tree constant_levels a) (number_tree constant_levels b) }
    ensures numbers { result ≡ cond (set_in_both (2 ^ constant_levels) a b) None (Some (a + b)) }
{
    if overlap(a, b) {
        return None;
    }
    Some(a + b)
}

// Whether some bit is set in both.
fn overlap(a: u32, b: u32) -> bool
    ensures { result ≡ set_in_both (2 ^ constant_levels) a b }
{
    a & b != 0
}

// How the test of a join comes out at one leaf. It holds, or fails by overlap: both parts are full; by surplus: just
// one part is full and the sum is empty; or by shortfall: both parts are empty and the sum is full.
#[derive(Clone, Copy, Debug, PartialEq, Eq)]
pub enum Way {
    Holds,
    Overlap,
    Surplus,
    Shortfall,
}

// The number of a way.
impl From<Way> for u8 {
    ghost from_gives = { λ way number. number ≡ way_number way };

    fn from(way: Way) -> u8 {
        match way {
            Way::Holds => 0,
            Way::Overlap => 1,
            Way::Surplus => 2,
            Way::Shortfall => 3,
        }
    }
}

// The height of a constant, all leaves at once.
pub fn constant_height(a: u32) -> u32
    ensures { result ≡ height (number_tree constant_levels a) }
{
    unlike_height(unlike(a))
}

// Bit i, up to 30, is set where leaf i of a constant is unlike leaf i + 1.
pub fn unlike(a: u32) -> u32
    ensures { result ≡ Unlike.unlike a }
{
    a ^ (a >> 1)
}

// The height of a constant by its unlike leaves, or that of the tallest of several by all of theirs. Bit i of a mask is
// set where leaves i and i + 1 lie in one of the 2^h equal blocks that the 32 leaves make up: if some are unlike there,
// the height is above h.
pub fn unlike_height(leaves: u32) -> u32
    ensures { result ≡ Unlike.raised constant_levels constant_levels leaves }
{
    let one = above(leaves & 0x7FFF_FFFF, 1, 0);
    let two = above(leaves & 0x7FFF_7FFF, 2, one);
    let three = above(leaves & 0x7F7F_7F7F, 3, two);
    let four = above(leaves & 0x7777_7777, 4, three);
    above(leaves & 0x5555_5555, 5, four)
}

// A height if some leaves are unlike under its mask, and otherwise the one that was found before.
fn above(leaves: u32, height: u32, before: u32) -> u32
    ensures { result ≡ cond (eqb leaves 0) before height }
{
    if leaves == 0 {
        return before;
    }
    height
}
