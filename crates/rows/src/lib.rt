// Rows: trees unfolded to a height, eight leaves to a byte, and the row of one variable in an answer buffer.
#![tactic(auto)]

pub mod blocks;

ghost use Rattle.std.specs.Prelude.{◌≡◌, ◌+◌, length};
ghost use Rattle.shares.specs.Constant.{constant_levels};
ghost use Rattle.rows.specs.Rows.{row_levels, row_range, row_part};

// A row of the answer buffer is a tree unfolded to this height, in this many bytes.
pub const ROW_LEVELS: usize = 10;

pub const ROW_BYTES: usize = 128;

// An answer has this many rows, in this many bytes.
pub const ROW_COUNT: usize = 12;

pub const ANSWER_BYTES: usize = 1536;

// A part of a buffer.
#[derive(Clone, Copy)]
pub struct Range {
    pub offset: usize,
    pub bytes: usize,
}

// Where the row of a variable lies in an answer buffer of so many bytes; the empty part, at the start, if there is
// none. It is no Option, since the exported call tells the empty part by these numbers, and its bytes are lent like
// those of a row.
#[tactic(auto, unfolding(crate::specs::Rows::row_range))]
pub fn row_range(bytes: usize, variable: usize) -> Range
    ensures { result ≡ row_range (row_levels constant_levels) bytes variable }
{
    if variable >= ROW_COUNT || bytes < ANSWER_BYTES {
        return Range {
            offset: 0,
            bytes: 0,
        };
    }
    Range {
        offset: variable * ROW_BYTES,
        bytes: ROW_BYTES,
    }
}

// The row of a variable, as that very part of the answer buffer: what it holds, and where it lies.
#[tactic(auto, using(crate::proofs::RowLaws::range_inside), unfolding(crate::specs::Rows::row_part))]
pub fn row(answer: &[u8], variable: usize) -> &[u8]
    ensures part { result.now ≡ row_part (row_levels constant_levels) answer.now variable }
    ensures lies { (result.ref_ptr.0 ≡ answer.entry.ref_ptr.0)
        × (result.ref_ptr.1 ≡ answer.entry.ref_ptr.1 +
        (row_range (row_levels constant_levels) (length answer.now) variable).offset) }
{
    let range = row_range(answer.len(), variable);
    &answer[range.offset..range.offset + range.bytes]
}
