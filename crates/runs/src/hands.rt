// Where the whole blocks of a run end, and how long its hands are. A side and a place come apart: a type of the two would be made and taken apart again at each call.
ghost use Rattle.std.specs.Prelude.{◌≡◌, ◌+◌, ◌≤◌, T, length};
ghost use Rattle.abelian.specs.Words.{vector};
ghost use Rattle.abelian.specs.Squares.{is_square};
ghost use Rattle.abelian.specs.Runs.{run_end};
ghost use Rattle.words.specs.Prefixes.{padded};
ghost use Rattle.runs.specs.Hands.{beside, room, hand_of};

use crate::row::Row;
use squares::marks::count_part;
use words::parts::exceeds;
use words::{CountedWord, WIDTH};

// The two sides of a place.
#[derive(Clone, Copy, PartialEq, Eq)]
pub(crate) enum Side {
    Before,
    Behind,
}

// Where the whole blocks end that begin with the square at a start: as long as a square stands one block further on, there is one block more.
pub(crate) fn run_end(row: &Row, start: usize) -> usize
    requires in_bounds { (1 ≤ start) × (start ≤ length row.now.marks.now) }
    requires t { T (is_square row.now.word.now row.now.period start) }
    ensures { result ≡ run_end row.now.word.now row.now.period start }
{
    let marks = row.marks;
    let period = row.period;
    let mut last = start;
    for next in (start + period..marks.len() + 1).step_by(period) {
        if marks[next - 1] != 1 {
            break;
        }
        last = next;
    }
    last - 1 + 2 * period
}

// The counts of the letters in a stretch on one side of a place, as a row.
fn count_beside(word: &CountedWord, side: Side, at: usize, size: usize) -> [u8; WIDTH]
    requires at_in_bounds { at ≤ length word.now }
    requires size_bound { size ≤ room word.now side at }
    ensures { result ≡ padded (vector (beside word.now side at size)) }
{
    match side {
        Side::Before => count_part(word, at - size, size),
        Side::Behind => count_part(word, at, size),
    }
}

// How many letters stand on one side of a place.
fn letters_beside(word: &CountedWord, side: Side, at: usize) -> usize
    requires { at ≤ length word.now }
    ensures { result ≡ room word.now side at }
{
    match side {
        Side::Before => at,
        Side::Behind => word.len() - at,
    }
}

// The length of a hand: the longest stretch on one side of a place that is contained in the block at a start. What is contained stays so when it is
// shortened, so that the lengths are halved until two neighbours are left, which no `for` does.
pub(crate) fn hand(row: &Row, start: usize, side: Side, at: usize) -> usize
    requires le_start { (1 ≤ start) × (start + row.now.period ≤ length row.now.word.now + 1) }
    requires at_in_bounds { at ≤ length row.now.word.now }
    ensures { result ≡ hand_of row.now.word.now row.now.period start side at }
{
    let block = count_part(row.word, start - 1, row.period);
    let letters = letters_beside(row.word, side, at);
    let mut hand = 0;
    let mut past = (letters + 1).min(row.period);
    while hand + 1 < past {
        let middle = (hand + past) / 2;
        if exceeds(count_beside(row.word, side, at, middle), block) {
            past = middle;
        } else {
            hand = middle;
        }
    }
    hand
}
