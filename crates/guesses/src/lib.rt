// The least choice that passes, of up to 12 variables, found by guesses: a choice is a number whose highest digit is
// variable 0, and a guess fixes the value of one variable more, empty (0) before full (1).
#![tactic(auto)]

ghost use Rattle.std.specs.Prelude.{◌≡◌, ◌^◌, ◌<◌, ◌≤◌, ltb};
ghost use Rattle.words.specs.Kept.{least_number};
ghost use Rattle.guesses.specs.Guesses.{Values, choice_number};

use words::Passing;

// Whether the least choice that passes lies below number `end`: a test of bits in the words up to there.
fn passes_below(passing: Passing, end: usize) -> bool
    requires { passing.word < 64 }
    ensures { result ≡ ltb (least_number passing) end }
{
    let start = 64 * passing.word;
    let choices = passing.choices;
    if end <= start {
        return false;
    }
    if 64 <= end - start {
        return true;
    }
    choices & ((1 << (end - start)) - 1) != 0
}

// The values of the least choice that passes. The variables are guessed in order; one that is not guessed yet is full.
// Before each guess the values are copied, and the guess is that the variable is empty: it stands if a choice that
// passes has it, and is otherwise undone. The choices with the values so far are the `span` from `low` on.
fn least_values(passing: Passing, free: usize) -> [u8; 12]
    requires { (free ≤ 12) × (least_number passing < 2 ^ free) }
    ensures { Values result × (choice_number free result ≡ least_number passing) }
{
    let mut values = [1u8; 12];
    let mut low: usize = 0;
    let mut span = basics::power(free);
    for v in 0..free {
        span /= 2;
        let before = values;
        values[v] = 0;
        if !passes_below(passing, low + span) {
            values = before;
            low += span;
        }
    }
    values
}

// The number of a choice: the values of its variables are the digits, that of variable 0 the highest.
fn number_of(values: [u8; 12], free: usize) -> usize
    requires { (free ≤ 12) × Values values }
    ensures { result ≡ choice_number free values }
{
    let mut number: usize = 0;
    for value in &values[..free] {
        number = 2 * number + usize::from(*value);
    }
    number
}

// The number of the least choice that passes.
pub fn least_choice(passing: Passing, free: usize) -> usize
    requires { (free ≤ 12) × (least_number passing < 2 ^ free) }
    ensures { result ≡ least_number passing }
{
    number_of(least_values(passing, free), free)
}
