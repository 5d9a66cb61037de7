// Pairs are ended by a word: each entry that is 0 and in range is set to the word's length where its pair is no Abelian period. The
// tracker's add and both listers go through a board in this way. For the crates above.
ghost use Rattle.std.specs.Prelude.{◌≡◌, ◌≤◌, length};
ghost use Rattle.abelian.specs.Trackers.{open_pairs};
ghost use Rattle.board.specs.Ending.{row_ended, row_open, all_ended};

use crate::{row_heads, row_start};
use abelian::{BOARD, Head, Period};
use periods::holds;
use words::CountedWord;

// How many pairs were tried, those in range whose entry was 0, and how many of them are live, since their entry is 0 still. What a lister answers has two
// numbers as well, but of words that are written, so that each type names its own.
#[derive(Clone, Copy)]
pub struct Trials {
    pub tried: usize,
    pub live: usize,
}

// Ends the pairs of one period, and returns how many were tried and how many of them are live. Those that end are counted, and the live ones are
// the rest: few pairs of a tracker end at a letter, and to count the others took longer. The loop is over the part of the board that is the row, and the
// head of each entry goes to the test.
fn end_row(word: &CountedWord, period: Period, board: &mut [u8; BOARD]) -> Trials
    requires { (1 ≤ period.0) × (period.0 ≤ length word.now) }
    ensures tried_value { result.tried ≡ length (row_open (length word.now) board.old period.0) }
    ensures live_value { result.live ≡ length (row_open (length word.now) board.new period.0) }
    ensures board_after { board.new ≡ row_ended word.now period.0 board.old }
{
    let word = word.copied();
    let n = word.len();
    let start = row_start(period);
    let heads = row_heads(n, period);
    let mut tried = 0;
    let mut ended = 0;
    for (h, entry) in board[start..start + heads].iter_mut().enumerate() {
        if *entry == 0 {
            tried += 1;
            if !holds(&word, Head(h), period) {
                *entry = n as u8;
                ended += 1;
            }
        }
    }
    let live = tried - ended;
    Trials { tried, live }
}

// Ends the pairs of every period, and returns how many were tried and how many of them are live: the pairs in range for the word whose
// entry was 0, and those whose entry is 0 still.
pub fn end_pairs(word: &CountedWord, board: &mut [u8; BOARD]) -> Trials
    ensures tried_value { result.tried ≡ length (open_pairs (length word.now) board.old) }
    ensures live_value { result.live ≡ length (open_pairs (length word.now) board.new) }
    ensures board_after { board.new ≡ all_ended word.now board.old }
{
    let n = word.len();
    let mut tried = 0;
    let mut live = 0;
    for p in 1..n + 1 {
        let row = end_row(word, Period(p), board);
        tried += row.tried;
        live += row.live;
    }
    Trials { tried, live }
}
