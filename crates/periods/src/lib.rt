// Abelian periods of a word by its prefix counts: the test that the listers and the tracker make of each pair.
#![tactic(auto)]

ghost use Rattle.std.specs.Prelude.{◌≡◌, T, length};
ghost use Rattle.abelian.specs.Periods.{pair, in_range, is_period};

use abelian::{Head, Period};
use words::CountedWord;
use words::parts::{difference, differs, exceeds};

// Whether the pair is an Abelian period of the word, by the table of its prefix counts: a block's vector is the difference of two rows, and
// the head's is its own row, so that no letter is counted anew. Head and period come apart, as C hands them over. For the crates above.
pub fn holds(word: &CountedWord, head: Head, period: Period) -> bool
    requires { T (in_range (length word.now) (pair head.0 period.0)) }
    ensures { result ≡ is_period word.now (pair head.0 period.0) }
{
    let n = word.len();
    let h = head.0;
    let p = period.0;
    let mut at = h + p;
    let first = difference(word.row(at), word.row(h));
    if exceeds(word.row(h), first) {
        return false;
    }
    // Where no whole block is left, the tail begins. A `for` in steps makes two tests at each block: with the fastest of three that were tried,
    // `list_plain` took 1.08 times as long.
    while p <= n - at {
        if differs(difference(word.row(at + p), word.row(at)), first) {
            return false;
        }
        at += p;
    }
    !exceeds(difference(word.row(n), word.row(at)), first)
}
