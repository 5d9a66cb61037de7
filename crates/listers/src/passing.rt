// Pairs are passed over: those in range whose period is below the lowest one for their head are closed on the board, so that they are
// not tried. A length goes by its number, as the board's functions take it.
ghost use Rattle.std.specs.Prelude.{◌≡◌, ◌≤◌};
ghost use Rattle.abelian.specs.Words.{longest};
ghost use Rattle.listers.specs.Passing.{passed_below, row_passed, all_passed};

use abelian::{BOARD, Period};
use board::{row_heads, row_start};
use words::ROWS;

// The entry of a pair in range: 1 where the period is below the lowest one for the head, and else as it was. On the board, whose entries are bytes, any number but 0 says
// that the pair is not open; the definition `passed_below` states 1.
fn passed_below(period: u8, lowest: u8, entry: u8) -> u8
    ensures { result ≡ passed_below period lowest entry }
{
    if period < lowest { 1 } else { entry }
}

// Passes over pairs of one period. The entry of each pair in range is stored, also one that stays as it was, so that the loop becomes vector
// instructions. It goes over the row's entries with their heads, since by these the lowest periods go.
fn pass_row(n: usize, period: Period, lowest: &[u8; ROWS], board: &mut [u8; BOARD])
    requires n_le_longest { n ≤ longest }
    requires le_period { (1 ≤ period.0) × (period.0 ≤ n) }
    ensures { board.new ≡ row_passed n lowest.now period.0 board.old }
{
    let p = period.0 as u8;
    let start = row_start(period);
    let heads = row_heads(n, period);
    for (h, entry) in board[start..start + heads].iter_mut().enumerate() {
        *entry = passed_below(p, lowest[h], *entry);
    }
}

// Passes over pairs of every period.
#[tactic(auto, unfolding(abelian::specs::Words::longest))]
pub(crate) fn pass_over(n: usize, lowest: &[u8; ROWS], board: &mut [u8; BOARD])
    requires { n ≤ longest }
    ensures { board.new ≡ all_passed n lowest.now board.old }
{
    for p in 1..n + 1 {
        pass_row(n, Period(p), lowest, board);
    }
}
