// The printing program: reads one question from standard input, asks it, and prints the answer.
#![tactic(auto)]

ghost use Rattle.std.specs.Prelude.{◌≡◌, cond, [], ◌∷◌, ◌+◌, ◌/◌, ◌%◌, None, Some};
ghost use Rattle.shares.specs.Constant.{constant_levels};
ghost use Rattle.systems.specs.Answers.{shows};
ghost use Rattle.rows.specs.Rows.{row_levels};
ghost use Rattle.text.specs.Texts.{text_after};
ghost use Rattle.decide.specs.Findings.{answer_of};

use asking::{Answer, Refusal};
use decide::Finding;
use std::io;
use std::io::ErrorKind;
use text::LONGEST_TEXT;

// The height of the solution that is shown, where one is.
fn shown_height(answer: Answer) -> Option<usize>
    ensures { result ≡ cond (shows (answer_of answer.finding)) (Some answer.height) None }
{
    decide::is_shown(answer.finding).then_some(answer.height)
}

// Each of these writes to standard output, and stops at the first write that fails. Each piece of a line is a write of
// its own, which a reader of messages sees.
fn say_verdict(rt: &impl Print, answer: Answer) -> io::Result<()> {
    if answer.is_yes() {
        return rt.write_all(b"answer yes\n");
    }
    rt.write_all(b"answer no\n")
}

// The name of a variable, with a space after it: `v` and two decimal digits. `print!` promises nothing of what it
// prints, so this is no `{variable:02}`.
fn name_of(variable: usize) -> [u8; 4]
    ensures { result ≡ (0x76 ∷ (0x30 + variable / 10 % 10) ∷ (0x30 + variable % 10) ∷ 0x20 ∷ []) }
{
    let tens = (48 + variable / 10 % 10) as u8;
    let ones = (48 + variable % 10) as u8;
    [b'v', tens, ones, b' ']
}

// Words and a number, which end a line.
fn say_number(rt: &impl Print, words: &[u8], number: usize) -> io::Result<()> {
    rt.write_all(words)?;
    rt.print(number)?;
    rt.write_all(b"\n")
}

fn say_refused(rt: &impl Print, refusal: Refusal) -> io::Result<()> {
    rt.write_all(b"refused ")?;
    rt.print(u8::from(refusal))?;
    say_number(rt, b" at ", refusal.place())
}

// The line of one variable. Every row of an answer has a text, and it fits.
fn say_row(rt: &impl Print, variable: usize, row: &[u8], text: &mut [u8]) -> io::Result<()>
    ensures { text.new ≡ text_after (row_levels constant_levels) row.now text.old }
{
    let Ok(n) = text::tree_text(row, text) else {
        return Err(io::Error::from(ErrorKind::InvalidData));
    };
    let Some(written) = text.get(..n) else {
        return Err(io::Error::from(ErrorKind::InvalidData));
    };
    rt.write_all(&name_of(variable))?;
    rt.write_all(written)?;
    rt.write_all(b"\n")
}

fn say_rows(rt: &impl Print, answer: &[u8], free: usize, text: &mut [u8]) -> io::Result<()> {
    for v in 0..free {
        say_row(rt, v, rows::row(answer, v), text)?;
    }
    Ok(())
}

// A shown solution. The buffer takes the text of every row.
fn say_solution(rt: &impl Print, answer: &[u8], free: usize, height: usize) -> io::Result<()> {
    let mut text = [0u8; LONGEST_TEXT];
    say_number(rt, b"height ", height)?;
    say_rows(rt, answer, free, &mut text)
}

// The reason, of an entailment alone. Only reason 3 has a disequation number.
fn say_reason(rt: &impl Print, answer: Answer) -> io::Result<()> {
    match answer.finding {
        Finding::Satisfied | Finding::Unsatisfied => Ok(()),
        Finding::Missed(j) => say_number(rt, b"reason 3 ", j),
        _ => say_number(rt, b"reason ", usize::from(answer.reason())),
    }
}

// What is printed for a question that has so many free variables and is answered.
fn say_answer(rt: &impl Print, free: usize, rows: &[u8], answer: Answer) -> io::Result<()> {
    say_verdict(rt, answer)?;
    if let Some(height) = shown_height(answer) {
        say_solution(rt, rows, free, height)?;
    }
    say_reason(rt, answer)
}

// What is printed for any question.
fn say(
    rt: &impl Print,
    free: usize,
    rows: &[u8],
    outcome: Result<Answer, Refusal>,
) -> io::Result<()> {
    match outcome {
        Ok(answer) => say_answer(rt, free, rows, answer),
        Err(refusal) => say_refused(rt, refusal),
    }
}

fn main(rt: HostRuntime) {
    let mut question = [0u8; 1024];
    let mut answer = [0u8; 1536];
    let mut work = [0u8; 4096];
    let mut input = rt.stdin();
    let n = input::read_full(&mut input, &mut question);
    if !input::is_all(&mut input, n, 1024) {
        let _ = rt.eprintln("zimorgal_cli: standard input could not be read");
        return;
    }
    let outcome = asking::ask(&question[..n], &mut answer, &mut work);
    // Byte 2 of a question that is answered says how many free variables it has.
    if say(&rt, usize::from(question[2]), &answer, outcome).is_err() {
        let _ = rt.eprintln("zimorgal_cli: the answer could not be written");
    }
}
