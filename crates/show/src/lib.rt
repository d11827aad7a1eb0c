// Showing a plan: the rows of its trees, written to the answer buffer.
#![tactic(auto)]

ghost use Rattle.std.specs.Prelude.{◌≡◌, ℕ, ◌-◌, ◌/◌, ◌^◌, ◌<◌, ◌≤◌, length, get_or};
ghost use Rattle.shares.specs.Constant.{constant_levels, bit};
ghost use Rattle.plans.specs.Shown.{Showable, plan_tree};
ghost use Rattle.rows.specs.Rows.{row_levels, row_bytes, row_count, answer_bytes, row_leaf, row_of, zeros};
ghost use Rattle.rows.specs.Emptied.{emptied};
ghost use Rattle.show.specs.Plans.{Shows, shown_answer};

use plans::Plan;
use rows::blocks::{Block, change_block};
use rows::{ANSWER_BYTES, ROW_BYTES, ROW_LEVELS};

// Digit p of a choice.
fn digit_of(choice: u16, p: usize) -> bool
    requires { p < 16 }
    ensures { result ≡ bit choice p }
{
    basics::digit(u64::from(choice), p)
}

// Writes the 2^low leaves, each with digit p of its choice, to a row that is empty. Their number is shifted down from
// 64, since with `1 << low` the end of the loop is made a shift and a test at each turn.
#[tactic(auto, using(crate::proofs::LeafLaws::leaves_few))]
fn write_leaves(row: &mut [u8], plan: &Plan, p: usize)
    requires { (plan.now.low ≤ 6) × (row.old ≡ zeros (row_bytes constant_levels)) × (p < 16) }
    ensures { (i : ℕ) → i < 2 ^ row_levels constant_levels
        → row_leaf row.new i ≡ bit (get_or plan.now.plain (i / 2 ^ (row_levels constant_levels - plan.now.low)) 0) p }
{
    let height = ROW_LEVELS - plan.low;
    let count = 64 >> (6 - plan.low);
    for (k, choice) in plan.plain[..count].iter().enumerate() {
        change_block(row, height, k, false, digit_of(*choice, p));
    }
}

// Sets the sub-leaves that hold another choice, in order.
fn write_sub_leaves(row: &mut [u8], plan: &Plan, p: usize)
    requires showable { Showable (row_levels constant_levels) plan.now }
    requires row_len { (length row.old ≡ row_bytes constant_levels) × (p < 16)
        × Shows (row_levels constant_levels) plan.now 0 p row.old }
    ensures { Shows (row_levels constant_levels) plan.now plan.now.count p row.new }
{
    let height = ROW_LEVELS - plan.high;
    for entry in &plan.entries[..plan.count] {
        let number = usize::from(entry.subleaf);
        let block = Block {
            row,
            height,
            number,
        };
        let old = block.first_leaf();
        change_block(row, height, number, old, digit_of(entry.choice, p));
    }
}

// Writes the row of the variable whose value is digit p, which is empty.
fn write_row(row: &mut [u8], plan: &Plan, p: usize)
    requires showable { Showable (row_levels constant_levels) plan.now }
    requires row_value { (row.old ≡ zeros (row_bytes constant_levels)) × (p < 16) }
    ensures { row.new ≡ row_of (row_levels constant_levels) (plan_tree plan.now p) }
{
    write_leaves(row, plan, p);
    write_sub_leaves(row, plan, p);
}

// Empties every row.
fn empty_rows(answer: &mut [u8])
    requires { answer_bytes constant_levels ≤ length answer.old }
    ensures { answer.new ≡ emptied (row_levels constant_levels) answer.old }
{
    answer[..ANSWER_BYTES].fill(0);
}

// Shows a plan of n free variables in the answer buffer: the rows of other variables stay empty.
pub fn write_rows(answer: &mut [u8], n: usize, plan: Plan)
    requires showable { Showable (row_levels constant_levels) plan }
    requires constant_levels_in_bounds { (answer_bytes constant_levels ≤ length answer.old) × (n ≤ row_count) }
    ensures { answer.new ≡ shown_answer (row_levels constant_levels) n plan answer.old }
{
    empty_rows(answer);
    for v in 0..n {
        write_row(
            &mut answer[v * ROW_BYTES..v * ROW_BYTES + ROW_BYTES],
            &plan,
            n - 1 - v,
        );
    }
}
