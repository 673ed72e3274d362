// The place of some threads' codes, read to base 8.

#![tactic(auto)]

ghost use Rattle.std.specs.Prelude.{◌≡◌, ◌<◌};
ghost use Rattle.model.specs.Counting.{digit_of, place_from, count_places};
ghost use Rattle.digits.specs.Coded.{code_at, Coded};

use model::Outcome;

// The codes in document 01's order.
const CODES: [i32; 8] = [0, 1, 2, -2, -3, -4, -5, -6];

// A code's place in that order; of any other number, 8.
fn digit(code: i32) -> usize
    ensures { result ≡ digit_of code }
{
    CODES.iter().position(|c| *c == code).unwrap_or(CODES.len())
}

// The code that a digit below 8 stands for; of a greater number, the last.
pub fn code_of(digit: usize) -> i32
    ensures { digit < 8 → digit_of result ≡ digit }
{
    CODES[digit.min(CODES.len() - 1)]
}

// The codes of the first n of four outcomes, read to base 8, the first the lowest digit.
pub fn place(n: u8, outcomes: [Outcome; 4]) -> usize
    requires { Coded n outcomes }
    ensures place { result ≡ place_from (code_at outcomes) n 0 }
    ensures small { result < count_places }
{
    let mut p = 0;
    for i in (0..n as usize).rev() {
        p = digit(outcomes[i].code) + 8 * p;
    }
    p
}
