// The reader of questions: a byte string becomes a question, or is refused with a fault and its place.
#![tactic(auto)]

mod keep;

ghost use Rattle.std.specs.Prelude.{◌≡◌, true, ◌≤◌, length, IfOk};
ghost use Rattle.systems.specs.Questions.{Question as Asked};
ghost use Rattle.format.specs.Format.{most_constants, accepted, head_fits, opened, run, read};
ghost use Rattle.format.specs.Numbers.{kind_value};
ghost use Rattle.format.specs.Stored.{clause_bytes, stored_of, Stands, reading_of, reading_told, written_by};
ghost use Rattle.format.specs.Stored.{clauses_after, place_of, leading};
ghost use Rattle.format.specs.Keeping.{lead_into};

use basics::CLAUSE_BYTES;
use commands::{CONSTANT_SIZE, opening};
use format::{Command, Fault, Head, Question, Refused, Taken};

// A question has at most this many constants.
const MOST_CONSTANTS: usize = 32;

// The constants that stand first, behind the head, up to the last that may be defined: their numbers, and how many
// there are. These are all: one that stands behind a clause, or behind as many as there may be, is a fault.
#[tactic(auto, using(format::proofs::LeadLaws::led_full, format::proofs::LeadLaws::led_end))]
fn read_constants(bytes: &[u8], constants: &mut [u64]) -> usize
    requires { (4 ≤ length bytes.now) × (length constants.old ≡ most_constants) }
    ensures value { (result ≡ leading most_constants bytes.now 0)
        × (constants.new ≡ lead_into most_constants bytes.now 0 constants.old) }
    ensures upper_bound { (result ≤ most_constants) × (place_of result ≤ length bytes.now) }
{
    let mut at: usize = 4;
    for defined in 0..MOST_CONSTANTS {
        let Some(constant) = commands::constant_at(bytes, at) else {
            return defined;
        };
        constants[defined] = constant.number;
        at = constant.next;
    }
    MOST_CONSTANTS
}

// The commands after a head. They differ in width, so the loop goes from offset to offset.
fn read_commands(bytes: &[u8], head: Head, clauses: &mut [u8]) -> Result<Question, Refused>
    requires in_bounds { 4 ≤ length bytes.now }
    requires own_value { head_fits (kind_value head.kind) head.free head.own ≡ true }
    requires clauses_len { length clauses.old ≡ clause_bytes }
    ensures answer { reading_told result
        ≡ reading_of (run (length bytes.now) bytes.now 4 (opened (kind_value head.kind) head.free head.own)) }
    ensures clauses { clauses.new
        ≡ written_by (length bytes.now) bytes.now 4 (opened (kind_value head.kind) head.free head.own) clauses.old }
    ensures stands { IfOk result (λ x. (q : Asked)
        → run (length bytes.now) bytes.now 4 (opened (kind_value head.kind) head.free head.own) ≡ accepted q
        → Stands (kind_value x.kind) (stored_of x clauses.new) q) }
    ensures first { IfOk result (λ x. x.defined ≡ leading most_constants bytes.now 0) }
{
    let mut constants = [0u64; 32];
    let mut counts = [0usize; 4];
    let defined = read_constants(bytes, &mut constants);
    let mut named: u64 = 0;
    let mut at = 4 + CONSTANT_SIZE * defined;
    loop {
        let step = faults::read_under(bytes, at, head, defined, &counts);
        let Ok(Taken { command, next }) = step else {
            return Err(Refused {
                fault: step.unwrap_err(),
                place: at,
            });
        };
        if let Command::End = command {
            if next == bytes.len() {
                return Ok(Question {
                    kind: head.kind,
                    free: head.free,
                    own: head.own,
                    constants,
                    defined,
                    named,
                    counts,
                });
            }
            return Err(Refused {
                fault: Fault::BytesAfter,
                place: next,
            });
        }
        named = keep::keep_clause(clauses, &counts, named, command);
        keep::count_clause(&mut counts, command);
        at = next;
    }
}

// Reads a byte string of any length. The clauses are written to the lent bytes as they are read.
pub fn read(bytes: &[u8], clauses: &mut [u8; CLAUSE_BYTES]) -> Result<Question, Refused>
    ensures answer { reading_told result ≡ reading_of (read bytes.now) }
    ensures clauses { clauses.new ≡ clauses_after bytes.now clauses.old }
    ensures stands { IfOk result (λ x. (q : Asked) → read bytes.now ≡ accepted q
        → Stands (kind_value x.kind) (stored_of x clauses.new) q) }
    ensures first { IfOk result (λ x. x.defined ≡ leading most_constants bytes.now 0) }
{
    let head = match opening::read_head(bytes) {
        Ok(head) => head,
        Err(fault) => return Err(Refused { fault, place: 0 }),
    };
    read_commands(bytes, head, clauses)
}
