// Output words of runs, written from the marks of squares.
ghost use Rattle.std.specs.Prelude.{◌≡◌, ◌≤◌, T, length};
ghost use Rattle.abelian.specs.Output.{hands_word, fill};
ghost use Rattle.abelian.specs.Squares.{is_square};
ghost use Rattle.abelian.specs.Words.{longest};
ghost use Rattle.abelian.specs.Runs.{run_at, words_of_run, run_words};
ghost use Rattle.runs.specs.Rows.{row_words};

use crate::hands::{Side, hand, run_end};
use crate::row::Row;
use crate::starts::starts_run;
use abelian::{Kind, output_word};
use squares::marks::Marked;

// The factors of the end and of the left hand in a run's second word.
const END: u32 = 65536;

const LEFT: u32 = 256;

// A run's second word: where its whole blocks end, and its hands.
fn hands_word(end: usize, left: usize, right: usize) -> u32
    requires end_le_longest { end ≤ longest }
    requires left_le_longest { left ≤ longest }
    requires right_le_longest { right ≤ longest }
    ensures { result ≡ hands_word end left right }
{
    Kind::Hands.word() + (end as u32) * END + (left as u32) * LEFT + right as u32
}

// Writes the two words of the run that begins with the square at a start.
fn write_run(row: &Row, start: usize, out: &mut [u32])
    requires start_in_bounds { (1 ≤ start) × (start ≤ length row.now.marks.now) }
    requires t { T (is_square row.now.word.now row.now.period start) }
    requires in_bounds { 2 ≤ length out.old }
    ensures { out.new ≡ fill (words_of_run (run_at row.now.word.now row.now.period start)) out.old }
{
    let end = run_end(row, start);
    let left = hand(row, start, Side::Before, start - 1);
    let right = hand(row, start, Side::Behind, end);
    out[0] = output_word(Kind::Run, row.period, start);
    out[1] = hands_word(end, left, right);
}

// Writes the words of the runs of one block length into the first places of the slice, and returns how many they are. They are counted by a loop of their own before, since by
// `run_listing` a slice that is too short stays as it came.
fn write_row(row: &Row, out: &mut [u32]) -> usize
    requires { length (row_words row.now.word.now row.now.period) ≤ length out.old }
    ensures value { result ≡ length (row_words row.now.word.now row.now.period) }
    ensures out_after { out.new ≡ fill (row_words row.now.word.now row.now.period) out.old }
{
    let mut at = 0;
    for start in 1..=row.marks.len() {
        if starts_run(row, start) {
            write_run(row, start, &mut out[at..]);
            at += 2;
        }
    }
    at
}

// Writes the words of all runs into the first places of the slice, each block length's behind those of the smaller ones.
pub(crate) fn write_runs(marked: &Marked, out: &mut [u32])
    requires { length (run_words marked.now.word.now) ≤ length out.old }
    ensures { out.new ≡ fill (run_words marked.now.word.now) out.old }
{
    let mut at = 0;
    for period in 1..=marked.word.len() / 2 {
        at += write_row(&Row::of(marked, period), &mut out[at..]);
    }
}
