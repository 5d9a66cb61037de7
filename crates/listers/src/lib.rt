// The two listers of Abelian periods, and their counts. Each goes through a board of the pairs in range, and writes or counts those that
// are left open; the two listers differ in the pairs that they try.
#![tactic(auto)]

pub mod candidates;
mod lowest;
mod passing;

ghost use Rattle.std.specs.Prelude.{◌≡◌, ◌≤◌, ℕ, List, length, replicate};
ghost use Rattle.abelian.specs.Words.{longest};
ghost use Rattle.abelian.specs.Answers.{answered_listed, answered_needed};
ghost use Rattle.abelian.specs.Calls.{listing, period_words, plain_listing, skipping_listing, period_count};
ghost use Rattle.abelian.specs.Trackers.{board_size, open_pairs};
ghost use Rattle.abelian.specs.Trials.{plain_trials, skipping_trials};
ghost use Rattle.words.specs.Prefixes.{IsWord};
ghost use Rattle.listers.specs.OpenListing.{open_listing};
ghost use Rattle.listers.specs.PeriodsLeft.{PeriodsLeft};

use abelian::{BOARD, Listed, Refusal};
use board::ending::{Trials, end_pairs};
use board::write_open;
use candidates::try_candidates;
use words::{CountedWord, ROWS, WIDTH, Word, check_word, count_prefixes};

// Which pairs a lister tries, on a board of zeros, on which all pairs are open.
trait Tries {
    // How many it tries.
    ghost trials: { List ℕ → ℕ };

    // Ends the pairs in range that are no Abelian period.
    fn end_others(word: &Word, board: &mut [u8; BOARD]) -> Trials
        requires word { IsWord word.now }
        requires zeros { board.old ≡ replicate board_size 0 }
        ensures { PeriodsLeft word.now (trials word.now) result board.new };
}

// Every pair in range. The table is an array of the call and lent, as there is no heap, so that it lies on the stack once.
struct EachPair;

impl Tries for EachPair {
    ghost trials = { plain_trials };

    fn end_others(word: &Word, board: &mut [u8; BOARD]) -> Trials {
        let mut counts = [[0u8; WIDTH]; ROWS];
        count_prefixes(word, &mut counts);
        end_pairs(&CountedWord::new(word, &counts), board)
    }
}

// The pairs that document 004's two bounds leave.
pub(crate) struct EachCandidate;

impl Tries for EachCandidate {
    ghost trials = { skipping_trials };

    fn end_others(word: &Word, board: &mut [u8; BOARD]) -> Trials {
        try_candidates(word, board)
    }
}

// Lists the open pairs of a board that are in range for n. The trials have counted them, so that it is known before the first word is written
// whether they fit, and a refusal leaves the slice as it came. The length n goes by its number, as the board's functions take it.
fn list_open(
    board: &[u8; BOARD],
    n: usize,
    found: Trials,
    out: &mut [u32],
) -> Result<Listed, Refusal>
    requires n_le_longest { n ≤ longest }
    requires live_value { found.live ≡ length (open_pairs n board.now) }
    ensures { answered_listed result out.new ≡ open_listing n board.now found.tried out.old }
{
    let words = found.live;
    let trials = found.tried;
    if out.len() < words {
        return Err(Refusal::SliceTooShort(words));
    }
    write_open(board, n, out);
    Ok(Listed { words, trials })
}

// Lists the Abelian periods of the word, which are left open on a board of zeros when the others are ended.
#[tactic(auto, unfolding(abelian::specs::Trackers::board_size))]
fn list<L: Tries>(word: &[u8], out: &mut [u32]) -> Result<Listed, Refusal>
    ensures { answered_listed result out.new ≡ listing word.now out.old (period_words word.now) (L.trials word.now) 0 0 }
{
    let word = check_word(word)?;
    let mut board = [0u8; BOARD];
    let found = L::end_others(&word, &mut board);
    list_open(&board, word.len(), found, out)
}

// The number of the word's Abelian periods, which are left open likewise.
#[tactic(auto, unfolding(abelian::specs::Trackers::board_size))]
fn number_left<L: Tries>(word: &Word) -> usize
    ensures { result ≡ length (period_words word.now) }
{
    let mut board = [0u8; BOARD];
    // It tells that the word is one.
    let _ = word.len();
    let found = L::end_others(word, &mut board);
    found.live
}

// How many words that list has.
fn count<L: Tries>(word: &[u8]) -> Result<usize, Refusal>
    ensures { answered_needed result ≡ period_count word.now }
{
    let word = check_word(word)?;
    Ok(number_left::<L>(&word))
}

// Lists all Abelian periods of the word, and tries each pair in range.
#[tactic(auto, unfolding(abelian::specs::Calls::plain_listing))]
pub fn list_plain(word: &[u8], out: &mut [u32]) -> Result<Listed, Refusal>
    ensures { answered_listed result out.new ≡ plain_listing word.now out.old }
{
    list::<EachPair>(word, out)
}

// Lists all Abelian periods of the word, and tries only the pairs that document 004's two bounds leave.
#[tactic(auto, unfolding(abelian::specs::Calls::skipping_listing))]
pub fn list_skipping(word: &[u8], out: &mut [u32]) -> Result<Listed, Refusal>
    ensures { answered_listed result out.new ≡ skipping_listing word.now out.old }
{
    list::<EachCandidate>(word, out)
}

// How many words the plain lister writes, found as it finds them.
pub fn count_plain(word: &[u8]) -> Result<usize, Refusal>
    ensures { answered_needed result ≡ period_count word.now }
{
    count::<EachPair>(word)
}

// How many words the skipping lister writes, found as it finds them.
pub fn count_skipping(word: &[u8]) -> Result<usize, Refusal>
    ensures { answered_needed result ≡ period_count word.now }
{
    count::<EachCandidate>(word)
}
