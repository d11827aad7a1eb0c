// Every call that other programs link.
#![tactic(auto)]

ghost use Rattle.std.specs.Prelude.{◌≡◌, cond, ◌≤◌, ◌<◌, ◌+◌, ◌*◌, ◌/◌, ◌%◌, ◌^◌, length, take, drop};
ghost use Rattle.shares.specs.Tree.{height, join};
ghost use Rattle.shares.specs.Constant.{constant_levels, number_tree, set_in_both};
ghost use Rattle.systems.specs.Questions as model;
ghost use Rattle.rows.specs.Rows.{row_levels, row_range, row_part};
ghost use Rattle.text.specs.Texts.{text_answer, text_after};
ghost use Rattle.constants.specs.FromText.{from_text};
ghost use Rattle.asking.specs.Asking.{answered, asked_with, outcome_of, answer_after, work_after};
ghost use Rattle.asking.specs.Told.{told as asking_told};
ghost use Rattle.asking.specs.Exact.{Exact};
ghost use Rattle.asking.specs.Demand3.{row_shares, Demand3};
ghost use Rattle.judging.specs.Judging.{Accepted, judged, judged_with, judgement_of};
ghost use Rattle.judging.specs.Exactly.{Exactly, AskingShows};
ghost use Rattle.judging.specs.Told.{broken_told, told as judging_told};
ghost use Rattle.zimorgal.specs.Packing.{packed, unpacked};
ghost use Rattle.zimorgal.specs.Fields.{InBytes};
ghost use Rattle.zimorgal.specs.Calls.{range_number, text_number, constant_number, undefined_join, number_join};
ghost use Rattle.zimorgal.specs.Calls.{version_number, judgement_number, Small};
ghost use Rattle.zimorgal.specs.Joins.{join_number};

use asking::Answer;
use constants::NoConstant;
use judging::{BrokenClause, Failing, Verdict};
use text::TextRefusal;

// A refusal as one number: its own in byte 1, and its place in bytes 2 and 3. What `as` converts here and below fits
// (from usize to u64, or its bytes by `InBytes` and `Small`), and `try_from` would have an error that cannot be.
fn refused_number(number: u8, place: usize) -> u64
    requires { place < 2 ^ 16 }
    ensures { result ≡ 2 ^ 8 * number + 2 ^ 16 * place }
{
    let [low, high] = (place as u16).to_le_bytes();
    u64::from_le_bytes([0, number, low, high, 0, 0, 0, 0])
}

// The result of asking as one number, byte by byte.
fn pack(outcome: Result<Answer, asking::Refusal>) -> u64
    requires { InBytes (asking_told outcome) }
    ensures { result ≡ packed (asking_told outcome) }
{
    match outcome {
        Ok(answer) => u64::from_le_bytes([
            answer.verdict(),
            0,
            0,
            0,
            answer.height as u8,
            answer.reason(),
            answer.disequation() as u8,
            0,
        ]),
        Err(refusal) => refused_number(u8::from(refusal), refusal.place()),
    }
}

// Asking, its result as one number.
#[unsafe(no_mangle)]
pub extern "C" fn zimorgal_ask(question: &[u8], answer: &mut [u8], work: &mut [u8]) -> u64
    ensures outcome { result ≡ packed (outcome_of (asked_with question.now answer.old work.old)) }
    ensures answer { answer.new ≡ answer_after (asked_with question.now answer.old work.old) answer.old }
    ensures work { work.new ≡ work_after (asked_with question.now answer.old work.old) work.old }
    ensures model { (q : model.Question) → asked_with question.now answer.old work.old ≡ answered q
        → Exact q (unpacked result) × Demand3 q (unpacked result) answer.new }
{
    pack(asking::ask(question, answer, work))
}

// Judging, its result as one number.
#[unsafe(no_mangle)]
pub extern "C" fn zimorgal_judge(question: &[u8], rows: &[u8]) -> u64
    ensures result { result ≡ judgement_number (judgement_of (judged_with question.now rows.now) rows.now) }
    ensures model { (q : model.Question) → judged_with question.now rows.now ≡ judged q
        → Exactly q (row_shares q.constants.levels rows.now) (λ j. Small j × (result ≡ judgement_number j)) }
    ensures shown { AskingShows question.now rows.now → result ≡ judgement_number Accepted }
{
    judgement_number(judging::judge(question, rows))
}

// The number of a broken clause: what it is, the number of the clause, that of the way, and the leaf in two bytes; of a
// disequation these are 0.
fn broken_number(broken: BrokenClause) -> u64
    requires { Small (broken_told broken) }
    ensures { result ≡ judgement_number (broken_told broken) }
{
    let number = broken.number as u8;
    let Some(Failing { way, leaf }) = broken.failing else {
        return u64::from_le_bytes([2, 0, 0, 0, number, 0, 0, 0]);
    };
    let [low, high] = (leaf as u16).to_le_bytes();
    u64::from_le_bytes([2, 0, 0, 0, number, u8::from(way), low, high])
}

// The number of what judging gives: what it is, and what is said of a refusal or of a broken clause.
fn judgement_number(judged: Result<Verdict, judging::Refusal>) -> u64
    requires { Small (judging_told judged) }
    ensures { result ≡ judgement_number (judging_told judged) }
{
    match judged {
        Err(refusal) => refused_number(u8::from(refusal), refusal.place()),
        Ok(Verdict::Accepted) => 1,
        Ok(Verdict::Broken(broken)) => broken_number(broken),
        Ok(Verdict::Extending) => 3,
    }
}

// Where the row of a variable lies in an answer buffer: the offset in the low 32 bits, the length in the high 32. It is
// the very part that `rows::row` hands back.
#[unsafe(no_mangle)]
pub extern "C" fn zimorgal_row(answer: &[u8], variable: usize) -> u64
    ensures range { result ≡ range_number (row_range (row_levels constant_levels) (length answer.now) variable) }
    ensures offset { result % 2 ^ 32 ≡ (row_range (row_levels constant_levels) (length answer.now) variable).offset }
    ensures length { result / 2 ^ 32 ≡ (row_range (row_levels constant_levels) (length answer.now) variable).bytes }
    ensures part { take (result / 2 ^ 32) (drop (result % 2 ^ 32) answer.now)
        ≡ row_part (row_levels constant_levels) answer.now variable }
{
    let range = rows::row_range(answer.len(), variable);
    (range.offset as u64) + ((range.bytes as u64) << 32)
}

// The text of a row: the length in the low 32 bits, the refusal number in the byte after them.
#[unsafe(no_mangle)]
pub extern "C" fn zimorgal_text(row: &[u8], text: &mut [u8]) -> u64
    ensures answer { result ≡ text_number (text_answer (row_levels constant_levels) row.now text.old) }
    ensures text { text.new ≡ text_after (row_levels constant_levels) row.now text.old }
{
    text_number(text::tree_text(row, text))
}

// The number of a text that was written or refused.
fn text_number(written: Result<usize, TextRefusal>) -> u64
    ensures { result ≡ text_number written }
{
    match written {
        Ok(length) => length as u64,
        Err(refusal) => u64::from(u8::from(refusal)) << 32,
    }
}

// The constant that a tree text writes, in the low 32 bits, the refusal number in the byte after them.
#[unsafe(no_mangle)]
pub extern "C" fn zimorgal_constant(text: &[u8]) -> u64
    ensures { result ≡ constant_number (from_text constant_levels text.now) }
{
    constant_number(constants::from_text(text))
}

// The number of a text that was read or refused.
fn constant_number(read: Result<u32, NoConstant>) -> u64
    ensures { result ≡ constant_number read }
{
    match read {
        Ok(constant) => u64::from(constant),
        Err(why) => u64::from(u8::from(why)) << 32,
    }
}

// The join of two constants, all leaves at once: their sum, or 2^32, undefined, exactly if some bit is set in both.
#[unsafe(no_mangle)]
pub extern "C" fn zimorgal_join(a: u32, b: u32) -> u64
    ensures tree { (result ≤ undefined_join constant_levels)
        × (number_join constant_levels result ≡ join (number_tree constant_levels a) (number_tree constant_levels b)) }
    ensures numbers { result ≡ cond (set_in_both (2 ^ constant_levels) a b) (undefined_join constant_levels) (a + b) }
{
    join_number(shares::join_constants(a, b))
}

// The number of a join.
fn join_number(joined: Option<u32>) -> u64
    ensures { result ≡ join_number constant_levels joined }
{
    match joined {
        Some(n) => u64::from(n),
        None => 1 << 32,
    }
}

// The height of a constant, all leaves at once.
#[unsafe(no_mangle)]
pub extern "C" fn zimorgal_height(a: u32) -> u32
    ensures { result ≡ height (number_tree constant_levels a) }
{
    shares::constant_height(a)
}

// The version of the library.
#[unsafe(no_mangle)]
pub extern "C" fn zimorgal_version() -> u32
    ensures { result ≡ version_number 0 2 0 }
{
    0x00_02_00
}
