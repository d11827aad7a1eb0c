// The judging program: reads 1,536 bytes of rows and then one question from standard input, judges the rows, and prints
// what it finds.
#![tactic(auto)]

ghost use Rattle.std.specs.Prelude.{◌≡◌, ◌≤◌, length, take};

use judging::{BrokenClause, Failing, Refusal, Verdict};
use shares::Way;
use std::io;
use std::io::Read;

// What is said of a way, and the leaf. This and what follows stop at the first write that fails. Each piece of a line
// is a write of its own, which a reader of messages sees.
fn say_way(rt: &impl Print, words: &[u8], leaf: usize) -> io::Result<()> {
    rt.write_all(words)?;
    rt.write_all(b" at ")?;
    rt.print(leaf)
}

fn say_failing(rt: &impl Print, failing: Failing) -> io::Result<()> {
    match failing.way {
        Way::Holds => Ok(()),
        Way::Overlap => say_way(rt, b" overlap", failing.leaf),
        Way::Surplus => say_way(rt, b" surplus", failing.leaf),
        Way::Shortfall => say_way(rt, b" shortfall", failing.leaf),
    }
}

// A clause that is broken; a disequation fails at no leaf.
fn say_broken(rt: &impl Print, broken: BrokenClause) -> io::Result<()> {
    rt.write_all(b"broken ")?;
    rt.print(broken.number)?;
    if let Some(failing) = broken.failing {
        say_failing(rt, failing)?;
    }
    rt.write_all(b"\n")
}

fn say_refused(rt: &impl Print, refusal: Refusal) -> io::Result<()> {
    rt.write_all(b"refused ")?;
    rt.print(u8::from(refusal))?;
    rt.write_all(b" at ")?;
    rt.print(refusal.place())?;
    rt.write_all(b"\n")
}

// What is printed for rows.
fn say(rt: &impl Print, judged: Result<Verdict, Refusal>) -> io::Result<()> {
    match judged {
        Err(refusal) => say_refused(rt, refusal),
        Ok(Verdict::Accepted) => rt.write_all(b"accepted\n"),
        Ok(Verdict::Broken(broken)) => say_broken(rt, broken),
        Ok(Verdict::Extending) => rt.write_all(b"extends\n"),
    }
}

// Reads the question, and gives its length. Where the rows are not all there, input has ended and there is none: on a
// terminal it could go on.
fn read_question<R: Read>(input: &mut R, rows: usize, question: &mut [u8]) -> usize
    ensures within { result ≤ length question.new }
    ensures prefix { result ≡ length (take result question.new) }
{
    if rows < 1536 {
        return 0;
    }
    input::read_full(input, question)
}

fn main(rt: HostRuntime) {
    let mut rows = [0u8; 1536];
    let mut question = [0u8; 1024];
    let mut input = rt.stdin();
    let m = input::read_full(&mut input, &mut rows);
    let n = read_question(&mut input, m, &mut question);
    if !input::is_all(&mut input, n, 1024) {
        let _ = rt.eprintln("zimorgal_judge_cli: standard input could not be read");
        return;
    }
    if say(&rt, judging::judge(&question[..n], &rows[..m])).is_err() {
        let _ = rt.eprintln("zimorgal_judge_cli: the judgement could not be written");
    }
}
