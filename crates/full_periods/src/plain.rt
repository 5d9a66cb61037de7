// The plain path: every block of every period that divides the word's length and is smaller is counted.
ghost use Rattle.std.specs.Prelude.{◌≡◌, T, length};
ghost use Rattle.abelian.specs.FullPeriods.{proper_divisor, is_full};
ghost use Rattle.full_periods.specs.Marks.{full_marks};

use abelian::Period;
use words::parts::differs;
use words::{ROWS, Word, count_letters};

// Whether the period, which divides the word's length and is smaller, is a full one: whether all blocks have the first block's vector. The
// blocks are parts of the word.
fn blocks_alike(word: &Word, period: Period) -> bool
    requires { T (proper_divisor period.0 (length word.now)) }
    ensures { result ≡ is_full word.now period.0 }
{
    let p = period.0;
    let n = word.len();
    let first = count_letters(&word.part(0, p));
    for from in (p..n).step_by(p) {
        let counts = count_letters(&word.part(from, from + p));
        if differs(counts, first) {
            return false;
        }
    }
    true
}

// The table of the word's full periods. None is above n / 2, since two blocks fit the word.
pub(crate) fn mark_full(word: &Word) -> [u8; ROWS]
    ensures { result ≡ full_marks word.now }
{
    let n = word.len();
    let mut marks = [0u8; ROWS];
    for p in 1..n / 2 + 1 {
        if n % p == 0 && blocks_alike(word, Period(p)) {
            marks[p] = 1;
        }
    }
    marks
}
