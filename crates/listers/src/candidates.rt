// The candidates of a word, tried on a board: what the skipping lister does before it lists, and how it counts.
ghost use Rattle.std.specs.Prelude.{◌≡◌, length};
ghost use Rattle.abelian.specs.Calls.{period_words};
ghost use Rattle.abelian.specs.Trackers.{open_pairs};
ghost use Rattle.words.specs.Prefixes.{IsWord};
ghost use Rattle.board.specs.Ending.{all_ended};
ghost use Rattle.listers.specs.Passing.{others_passed};

use crate::lowest::lowest_periods;
use crate::passing::pass_over;
use crate::{EachCandidate, number_left};
use abelian::BOARD;
use board::ending::{Trials, end_pairs};
use words::{CountedWord, ROWS, WIDTH, Word, count_prefixes};

// Ends the pairs in range that are no Abelian period, and returns how many were tried and how many of them are live. Only those open pairs
// are tried that document 004's two bounds leave, whose head is not ruled out and whose period is not below the lowest one for the head. What
// is passed over is no Abelian period. The contract says too that the word is one. The table is an array of this call and lent, as there is no heap: made by a function that hands
// it back it would lie on the stack twice.
pub(crate) fn try_candidates(word: &Word, board: &mut [u8; BOARD]) -> Trials
    ensures tried_value { result.tried ≡ length (open_pairs (length word.now) (others_passed word.now board.old)) }
    ensures live_value { result.live ≡ length (open_pairs (length word.now) board.new) }
    ensures board_after { board.new ≡ all_ended word.now (others_passed word.now board.old) }
    ensures word { IsWord word.now }
{
    let mut counts = [[0u8; WIDTH]; ROWS];
    count_prefixes(word, &mut counts);
    let counted = CountedWord::new(word, &counts);
    let lowest = lowest_periods(&counted);
    pass_over(word.len(), &lowest, board);
    end_pairs(&counted, board)
}

// The number of Abelian periods of a word. For the crates above.
pub fn number_of_periods(word: &Word) -> usize
    ensures { result ≡ length (period_words word.now) }
{
    number_left::<EachCandidate>(word)
}
