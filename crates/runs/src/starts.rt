// Starts of runs, by the marks of squares: a run starts at a marked candidate with no marked one a block before it.
ghost use Rattle.std.specs.Prelude.{◌≡◌, ◌≤◌, length};
ghost use Rattle.abelian.specs.Runs.{run_words};
ghost use Rattle.runs.specs.Rows.{starts_run, row_words};

use crate::row::Row;
use squares::marks::Marked;

// Whether a run starts at a candidate: its mark is above that of the candidate one block before it, where there is one.
pub(crate) fn starts_run(row: &Row, start: usize) -> bool
    requires { (1 ≤ start) × (start ≤ length row.now.marks.now) }
    ensures { result ≡ starts_run row.now.word.now row.now.period start }
{
    let marks = row.marks;
    if start <= row.period {
        marks[start - 1] == 1
    } else {
        let back = marks[start - 1 - row.period];
        back < marks[start - 1]
    }
}

// How many words the runs of one block length take: two each.
fn count_row(row: &Row) -> usize
    ensures { result ≡ length (row_words row.now.word.now row.now.period) }
{
    let mut found = 0;
    for start in 1..=row.marks.len() {
        if starts_run(row, start) {
            found += 2;
        }
    }
    found
}

// How many words the runs of the word take.
pub(crate) fn count_words(marked: &Marked) -> usize
    ensures { result ≡ length (run_words marked.now.word.now) }
{
    let mut found = 0;
    for period in 1..=marked.word.len() / 2 {
        found += count_row(&Row::of(marked, period));
    }
    found
}
