// Blocks of a row: block q of height h is the leaves q * 2^h to q * 2^h + 2^h - 1, some bits of one byte up to height
// 3, else whole bytes.
ghost use Rattle.std.specs.Prelude.{◌≡◌, ◌↔◌, cond, ℕ, ◌+◌, ◌-◌, ◌*◌, ◌/◌, ◌^◌, ◌<◌, ◌≤◌, T, eqb, length, get_or};
ghost use Rattle.shares.specs.Constant.{bit};
ghost use Rattle.rows.specs.Rows.{row_leaf};
ghost use Rattle.rows.specs.Blocks.{Inside, AllLeaves, BlockSet, whole_byte};

// The bits of block `a` of a byte: as many ones as a block has leaves, moved to where it lies. They fit, and `try_from`
// would have an error that cannot be.
#[tactic(auto, using(crate::proofs::Masks::mask_shift, crate::proofs::Masks::mask_fits, crate::proofs::Masks::mask_right))]
fn mask(height: usize, a: usize) -> u8
    requires { (height ≤ 3) × (a < 2 ^ (3 - height)) }
    ensures { (i : ℕ) → i < 8 → bit result i ≡ eqb (i / 2 ^ height) a }
{
    let size = basics::power(height);
    let ones = basics::power(size) - 1;
    (ones * basics::power(a * size)) as u8
}

// The byte whose eight leaves are all full, or all empty.
fn whole(full: bool) -> u8
    ensures { result ≡ whole_byte full }
{
    if full { 255 } else { 0 }
}

// A byte with the leaves of its block `a` set.
#[tactic(auto, using(crate::proofs::Bytes::block_bits))]
fn with_block(byte: u8, height: usize, a: usize, full: bool) -> u8
    requires { (height ≤ 3) × (a < 2 ^ (3 - height)) }
    ensures { (i : ℕ) → i < 8 → bit result i ≡ cond (eqb (i / 2 ^ height) a) full (bit byte i) }
{
    byte ^ ((byte ^ whole(full)) & mask(height, a))
}

// Whether every leaf of block `a` of a byte is the one asked for.
fn is_block(byte: u8, height: usize, a: usize, full: bool) -> bool
    requires { (height ≤ 3) × (a < 2 ^ (3 - height)) }
    ensures { T result ↔ ((i : ℕ) → i < 8 → i / 2 ^ height ≡ a → bit byte i ≡ full) }
{
    (byte ^ whole(full)) & mask(height, a) == 0
}

// Whether every leaf of some bytes is the one asked for.
fn is_filled(part: &[u8], full: bool) -> bool
    ensures { T result ↔ ((i : ℕ) → i < 8 * length part.now → row_leaf part.now i ≡ full) }
{
    let byte = whole(full);
    part.iter().all(|b| *b == byte)
}

// Sets the leaves of block q: whole bytes, or some bits of one byte. It takes the row, since a struct over a `&mut`
// would be made for each block anew.
#[tactic(auto, using(crate::proofs::Parts::set_at, crate::proofs::Parts::fill_at))]
pub fn write_block(row: &mut [u8], height: usize, q: usize, full: bool)
    requires { Inside height q (length row.old) }
    ensures { BlockSet row.old row.new height q full }
{
    if height <= 3 {
        let blocks = basics::power(3 - height);
        let j = q / blocks;
        row[j] = with_block(row[j], height, q % blocks, full);
        return;
    }
    let size = basics::power(height - 3);
    let start = q * size;
    row[start..start + size].fill(whole(full));
}

// Sets the leaves of block q, which are all `old`. Nothing is written where they are to stay so.
pub fn change_block(row: &mut [u8], height: usize, q: usize, old: bool, full: bool)
    requires { Inside height q (length row.old) × AllLeaves row.old height q old }
    ensures { BlockSet row.old row.new height q full }
{
    if old == full {
        return;
    }
    write_block(row, height, q, full);
}

// Block `number` of a row that is only read.
#[derive(Clone, Copy)]
pub struct Block<'a> {
    pub row: &'a [u8],
    pub height: usize,
    pub number: usize,
    pub ghost inside: { Inside height number (length row.now) },
}

impl<'a> Block<'a> {
    // Its first leaf.
    #[tactic(auto, unfolding(crate::specs::Rows::row_leaf))]
    pub fn first_leaf(self) -> bool
        ensures { result ≡ row_leaf self.entry.row.now (self.entry.number * 2 ^ self.entry.height) }
    {
        let i = self.number * basics::power(self.height);
        basics::digit(u64::from(self.row[i / 8]), i % 8)
    }

    // Whether every leaf of it is the one asked for. It stops at the first byte that has another.
    pub fn is_uniform(self, full: bool) -> bool
        ensures { T result ↔ AllLeaves self.entry.row.now self.entry.height self.entry.number full }
    {
        if self.height <= 3 {
            let blocks = basics::power(3 - self.height);
            return is_block(
                self.row[self.number / blocks],
                self.height,
                self.number % blocks,
                full,
            );
        }
        let size = basics::power(self.height - 3);
        let start = self.number * size;
        is_filled(&self.row[start..start + size], full)
    }

    // Its left half and its right half.
    pub fn halves(self) -> (Block<'a>, Block<'a>)
        requires { 0 < self.height }
        ensures left { (result.0.row.now ≡ self.entry.row.now) × (result.0.height ≡ self.entry.height - 1)
            × (result.0.number ≡ 2 * self.entry.number) }
        ensures right { (result.1.row.now ≡ self.entry.row.now) × (result.1.height ≡ self.entry.height - 1)
            × (result.1.number ≡ 2 * self.entry.number + 1) }
    {
        let height = self.height - 1;
        let left = Block {
            row: self.row,
            height,
            number: 2 * self.number,
        };
        let right = Block {
            row: self.row,
            height,
            number: 2 * self.number + 1,
        };
        (left, right)
    }
}
