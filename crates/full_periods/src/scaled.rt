// The scaled path of document 002: with g the greatest common divisor of the letter counts and s = n / g, a full period is a multiple
// of s, and every multiple of it is a scaled position.
ghost use Rattle.std.specs.Prelude.{◌≡◌, ◌≤◌, length};
ghost use Rattle.abelian.specs.FullPeriods.{scale, scaled_gap};
ghost use Rattle.full_periods.specs.Marks.{full_marks, scaled_marks};
ghost use Rattle.full_periods.specs.Divisors.{unit_counts};
ghost use Rattle.full_periods.specs.Paths.{scaled_path};

use crate::counts::{count_divisor, divide, is_multiple};
use crate::marks::Marked;
use abelian::{FIRST_LETTER, LETTERS, Period};
use words::parts::count_more;
use words::{ROWS, Word, count_letters};

// What the path finds: the numbers s and T of document 01, and the table of the full periods.
#[derive(Drop)]
pub struct ScaledPath {
    pub s: usize,
    pub t: usize,
    pub marks: [u8; ROWS],
}

// The table of the scaled positions. Each letter is read once, and the running counts are compared only at the multiples of s. The
// last s letters are not read, since of the last s positions the word's end is scaled and no other. The multiples are counted beside the letters: by chunks of s letters there
// would be a loop inside a loop.
fn mark_scaled(word: &Word, s: usize, unit: [u8; LETTERS]) -> [u8; ROWS]
    requires le_s { 1 ≤ s }
    requires s_value { s ≡ scale word.now }
    requires unit_value { unit ≡ unit_counts word.now }
    ensures { result ≡ scaled_marks word.now }
{
    let letters = word.letters();
    let n = word.len();
    let mut marks = [0u8; ROWS];
    marks[0] = 1;
    let mut counts = [0u8; LETTERS];
    let mut times: u16 = 1;
    let mut next = s;
    for (i, letter) in letters[0..n - s].iter().enumerate() {
        let more = count_more(counts, *letter - FIRST_LETTER);
        counts = more;
        if i + 1 == next {
            if is_multiple(counts, times, unit) {
                marks[next] = 1;
            }
            times += 1;
            next += s;
        }
    }
    marks[n] = 1;
    marks
}

// The table of the full periods: of the multiples of s, the positions' step, from s times T on those that divide n and whose multiples are all
// scaled positions. None is above n / 2, since two blocks fit the word. The plain path's `mark_full` has another range and another test, and the contract of a closure for the
// test would be as long as this loop.
fn mark_full(word: &Word, t: usize, positions: &Marked) -> [u8; ROWS]
    requires n_value { positions.now.n ≡ length word.now }
    requires le_s { 1 ≤ positions.now.step }
    requires s_value { positions.now.step ≡ scale word.now }
    requires t_value { t ≡ scaled_gap word.now }
    requires positions_value { positions.now.marks.now ≡ scaled_marks word.now }
    ensures { result ≡ full_marks word.now }
{
    let n = word.len();
    let s = positions.step;
    let mut marks = [0u8; ROWS];
    let lowest = s * t;
    for p in (lowest..n / 2 + 1).step_by(s) {
        if n % p == 0 && positions.marks_multiples(Period(p)) {
            marks[p] = 1;
        }
    }
    marks
}

// s, T and the full periods of the word. The empty word has no letter, and s and T are 0, and no `None`: document 01 answers 0.
pub(crate) fn find_path(word: &Word) -> ScaledPath
    ensures { result ≡ scaled_path word.now }
{
    let n = word.len();
    let counts = count_letters(word);
    let g = count_divisor(counts);
    if g == 0 {
        return ScaledPath {
            s: 0,
            t: 0,
            marks: [0u8; ROWS],
        };
    }
    let s = n / (g as usize);
    let unit = divide(counts, g);
    let positions = mark_scaled(word, s, unit);
    let marked = Marked {
        marks: &positions,
        n,
        step: s,
    };
    let t = marked.greatest_distance() / s;
    let marks = mark_full(word, t, &marked);
    ScaledPath { s, t, marks }
}
