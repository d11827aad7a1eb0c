// The tree text of a row: `o` an empty leaf, `*` a full one, `(` left right `)` a pair, always folded. A pair is
// written as its two halves are.
#![tactic(auto)]

ghost use Rattle.std.specs.Prelude.{◌≡◌, ◌+◌, ◌*◌, ◌^◌, ◌≤◌, leb, length, get_or};
ghost use Rattle.shares.specs.Constant.{constant_levels};
ghost use Rattle.shares.specs.Text.{text};
ghost use Rattle.rows.specs.Rows.{row_levels, row_bytes};
ghost use Rattle.rows.specs.Blocks.{Inside, block_tree};
ghost use Rattle.text.specs.Texts.{refusal_number, row_text, text_answer, text_after};
ghost use Rattle.text.specs.Put.{Put};

use rows::blocks::Block;
use rows::{ROW_BYTES, ROW_LEVELS};

// No text of a row is longer than this.
pub const LONGEST_TEXT: usize = 3070;

// Why no text is written.
#[derive(Clone, Copy, PartialEq, Eq, Debug)]
pub enum TextRefusal {
    TooLong,
    NotARow,
}

// The number of a refusal.
impl From<TextRefusal> for u8 {
    ghost from_gives = { λ refusal number. number ≡ refusal_number refusal };

    fn from(refusal: TextRefusal) -> u8 {
        match refusal {
            TextRefusal::TooLong => 13,
            TextRefusal::NotARow => 14,
        }
    }
}

// The first sign of the text of a block: the leaf that it is, or a bracket.
fn first_sign(block: Block<'_>) -> u8
    ensures { result ≡ get_or (text (block_tree block.entry.row.now block.entry.height block.entry.number)) 0 0 }
{
    if block.is_uniform(false) {
        return b'o';
    }
    if block.is_uniform(true) {
        return b'*';
    }
    b'('
}

// The length of the text of block `number`. This and the next take a block by its numbers, since a struct of four words
// would go through memory at each half.
fn text_length(row: &[u8], height: usize, number: usize) -> usize
    requires { Inside height number (length row.now) }
    ensures { (result ≡ length (text (block_tree row.now height number))) × (result + 2 ≤ 3 * 2 ^ height) }
{
    let block = Block {
        row,
        height,
        number,
    };
    if first_sign(block) != b'(' {
        return 1;
    }
    let (left, right) = block.halves();
    2 + text_length(row, left.height, left.number) + text_length(row, right.height, right.number)
}

// Writes the text of block `number` from an offset of the buffer on, and gives the offset after it.
fn write_text(row: &[u8], height: usize, number: usize, buffer: &mut [u8], at: usize) -> usize
    requires inside { Inside height number (length row.now) }
    requires room { at + length (text (block_tree row.now height number)) ≤ length buffer.old }
    ensures { Put (text (block_tree row.now height number)) buffer.old at result buffer.new }
{
    let block = Block {
        row,
        height,
        number,
    };
    let sign = first_sign(block);
    buffer[at] = sign;
    if sign != b'(' {
        return at + 1;
    }
    let (left, right) = block.halves();
    let middle = write_text(row, left.height, left.number, buffer, at + 1);
    let end = write_text(row, right.height, right.number, buffer, middle);
    buffer[end] = b')';
    end + 1
}

// Whether the text of a row fits so many bytes.
fn text_fits(row: &[u8], room: usize) -> bool
    requires { length row.now ≡ row_bytes constant_levels }
    ensures { result ≡ leb (length (row_text (row_levels constant_levels) row.now)) room }
{
    if LONGEST_TEXT <= room {
        return true;
    }
    text_length(row, ROW_LEVELS, 0) <= room
}

// Writes the text of a row to the buffer, and gives its length.
pub fn tree_text(row: &[u8], buffer: &mut [u8]) -> Result<usize, TextRefusal>
    ensures answer { result ≡ text_answer (row_levels constant_levels) row.now buffer.old }
    ensures buffer { buffer.new ≡ text_after (row_levels constant_levels) row.now buffer.old }
{
    if row.len() != ROW_BYTES {
        return Err(TextRefusal::NotARow);
    }
    if !text_fits(row, buffer.len()) {
        return Err(TextRefusal::TooLong);
    }
    Ok(write_text(row, ROW_LEVELS, 0, buffer, 0))
}
