// The board: one entry for each pair in range for 240, in pair order. Where the row of a period begins and how long it is, how many pairs are
// in range, and those whose entry is 0 counted and written: the tracker's list ends in these two, its count and its take-back in the first, and both listers in
// the second. For the crates above. The length n is a word's or a tracker's, so that it goes by its number. The board's entries are bytes, since C hands them over.
#![tactic(auto)]

pub mod ending;

ghost use Rattle.std.specs.Prelude.{◌≡◌, ◌≤◌, length};
ghost use Rattle.abelian.specs.Words.{longest, count};
ghost use Rattle.abelian.specs.Periods.{pair, heads, pairs};
ghost use Rattle.abelian.specs.Output.{period_word, fill};
ghost use Rattle.abelian.specs.Trackers.{open_pairs, open_words};
ghost use Rattle.board.specs.Places.{row_start};
ghost use Rattle.board.specs.Rows.{row_words};

use abelian::{BOARD, Head, Kind, LONGEST, Period, output_word};

// Where the row of the period begins: behind the p (p − 1) / 2 pairs with a smaller period while rows grow, and from 122 on, where they
// shrink, as far before the board's end as the rows from p on take, of 241 − p pairs and fewer.
pub fn row_start(period: Period) -> usize
    requires { period.0 ≤ longest }
    ensures { result ≡ row_start period.0 }
{
    let p = period.0;
    if p <= 121 {
        (p * p - p) / 2
    } else {
        14520 - (241 - p) * (242 - p) / 2
    }
}

// How many heads are in range for n with the period: those below p that leave room for a block.
#[tactic(auto, unfolding(abelian::specs::Words::longest, abelian::specs::Periods::heads))]
pub fn row_heads(n: usize, period: Period) -> usize
    requires { (period.0 ≤ n) × (n ≤ longest) }
    ensures { result ≡ heads n period.0 }
{
    let p = period.0;
    p.min(n + 1 - p)
}

// How many pairs are in range for n.
pub fn pairs_in_range(n: usize) -> usize
    requires { n ≤ longest }
    ensures { result ≡ length (pairs n) }
{
    (n + 1) / 2 * ((n + 2) / 2)
}

// How many of a row's entries are 0. A byte holds the number, since no row has more entries than the longest word has letters; so the
// compiled loop compares and counts 16 entries at a time.
fn count_zeros(row: &[u8]) -> usize
    requires { length row.now ≤ longest }
    ensures { result ≡ count 0 row.now }
{
    let mut zeros = 0u8;
    for entry in row {
        zeros += (*entry == 0) as u8;
    }
    zeros as usize
}

// How many pairs in range for n have the entry 0. The start is carried from row to row: each begins where the one before it ends for the
// longest word.
pub fn count_open(board: &[u8; BOARD], n: usize) -> usize
    requires { n ≤ longest }
    ensures { result ≡ length (open_pairs n board.now) }
{
    let mut found = 0;
    let mut start = 0;
    for p in 1..n + 1 {
        let end = start + row_heads(n, Period(p));
        found += count_zeros(&board[start..end]);
        start += row_heads(LONGEST, Period(p));
    }
    found
}

// The output word of an Abelian period: its kind, the period above, the head below.
#[tactic(auto, unfolding(abelian::specs::Output::period_word))]
fn period_word(head: Head, period: Period) -> u32
    requires { (head.0 ≤ longest) × (period.0 ≤ longest) }
    ensures { result ≡ period_word (pair head.0 period.0) }
{
    output_word(Kind::Period, period.0, head.0)
}

// Writes the words of a row's open pairs to the first places, and returns how many there are. `row` has the entries of the period, by head.
fn write_row(row: &[u8], period: Period, out: &mut [u32]) -> usize
    requires row_len_bound { (length row.now ≤ longest) × (period.0 ≤ longest) }
    requires row_in_bounds { count 0 row.now ≤ length out.old }
    ensures value { result ≡ count 0 row.now }
    ensures out_after { out.new ≡ fill (row_words period.0 0 row.now) out.old }
{
    let mut written = 0;
    for (h, entry) in row.iter().enumerate() {
        if *entry == 0 {
            out[written] = period_word(Head(h), period);
            written += 1;
        }
    }
    written
}

// Writes the words of the pairs in range for n whose entry is 0 to the first places, in pair order. The start is carried as in `count_open`. The two are not one loop, which
// would be no plainer: what is done with a row would be a closure, and the loop's contract would say what it does. It stays a function by itself: written out in a call that has more values
// at hand, its loop took 1.2 times as long.
#[inline(never)]
pub fn write_open(board: &[u8; BOARD], n: usize, out: &mut [u32])
    requires n_le_longest { n ≤ longest }
    requires board_in_bounds { length (open_pairs n board.now) ≤ length out.old }
    ensures { out.new ≡ fill (open_words n board.now) out.old }
{
    let mut written = 0;
    let mut start = 0;
    for row in 1..n + 1 {
        let end = start + row_heads(n, Period(row));
        written += write_row(&board[start..end], Period(row), &mut out[written..]);
        start += row_heads(LONGEST, Period(row));
    }
}
