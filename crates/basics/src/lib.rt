// Numbers and bytes: small functions and numbers that several crates use.
#![tactic(auto)]

ghost use Rattle.std.specs.Prelude.{◌≡◌, ◌+◌, ◌^◌, ◌≤◌, ◌<◌, length, take, drop};
ghost use Rattle.shares.specs.Constant.{bit, number};

// The clauses of a question are stored in so many bytes, four a clause, section after section: the first system's
// positive clauses from byte 0, then its disequations, and then the second system's in the same way.
pub const CLAUSE_BYTES: usize = 768;

pub const FIRST_DISEQUATIONS: usize = 256;

pub const SECOND_POSITIVES: usize = 384;

pub const SECOND_DISEQUATIONS: usize = 640;

// Parts of a join at a leaf that are no term's: one that is always empty, and one that is always full.
pub const EMPTY_PART: u8 = 0x0C;

pub const FULL_PART: u8 = 0x0D;

// Two to the power k.
pub fn power(k: usize) -> usize
    requires { k < 64 }
    ensures { result ≡ 2 ^ k }
{
    1 << k
}

// Whether bit p of x is set.
pub fn digit(x: u64, p: usize) -> bool
    requires { p < 64 }
    ensures { result ≡ bit x p }
{
    (x >> p) & 1 == 1
}

// The number that four bytes make, the lowest first.
pub fn four_bytes(bytes: &[u8], i: usize) -> u64
    requires { i + 4 ≤ length bytes.now }
    ensures { (result ≡ number (take 4 (drop i bytes.now))) × (result < 2 ^ 32) }
{
    u64::from(u32::from_le_bytes([bytes[i], bytes[i + 1], bytes[i + 2], bytes[i + 3]]))
}
