// Abelian runs of a word (document 003, as C-11 has them): whole blocks side by side with equal count vectors, as far as these go on, and on both sides
// the longest stretch that is contained in a block. A run is a chain of squares, each one block behind the one before it, so that it is read off the marks of
// the squares. The words of all runs are counted first, so that a list that is too long is refused before the first place of the slice is written. The table and the marks
// are arrays of the call that needs them, and are lent, so that each lies on the stack once.
#![tactic(auto, unfolding(abelian::specs::Words::longest))]

mod hands;
mod output;
mod row;
mod starts;

ghost use Rattle.std.specs.Prelude.{◌≡◌, List, ℕ, ◌≤◌, length};
ghost use Rattle.abelian.specs.Words.{longest};
ghost use Rattle.abelian.specs.Runs.{run_words};
ghost use Rattle.abelian.specs.Answers.{answered_wrote, answered_needed};
ghost use Rattle.abelian.specs.Calls.{run_listing, run_count};

use abelian::Refusal;
use output::write_runs;
use squares::CANDIDATES;
use squares::marks::{Marked, mark_squares};
use starts::count_words;
use words::{CountedWord, ROWS, WIDTH, check_word, count_prefixes};

// Places enough for the runs of every word: a bound and not a maximum. No two runs of one block length start one block apart, so that at most half of the
// candidates of two blocks in a row are starts, and a run takes two places. No word is known to need as many.
pub const PLACES: usize = 17682;

// That number, with the promise that it is enough; for C and for Rust it stands as LUFF_BOUND_RUNS and BOUND_RUNS.
pub fn places() -> usize
    ensures { (w : List ℕ) → length w ≤ longest → length (run_words w) ≤ result }
{
    PLACES
}

// Writes all Abelian runs of the word, two words each, by the length of a block and then by start.
pub fn list_runs(word: &[u8], out: &mut [u32]) -> Result<usize, Refusal>
    ensures { answered_wrote result out.new ≡ run_listing word.now out.old }
{
    let word = check_word(word)?;
    let mut table = [[0u8; WIDTH]; ROWS];
    count_prefixes(&word, &mut table);
    let counted = CountedWord::new(&word, &table);
    let mut marks = [0u8; CANDIDATES];
    mark_squares(&counted, &mut marks);
    let marked = Marked {
        word: &counted,
        marks: &marks,
    };
    let needed = count_words(&marked);
    if needed > out.len() {
        return Err(Refusal::SliceTooShort(needed));
    }
    write_runs(&marked, out);
    Ok(needed)
}

// How many words the runs of the word take, two each. No hand is looked for.
pub fn count_runs(word: &[u8]) -> Result<usize, Refusal>
    ensures { answered_needed result ≡ run_count word.now }
{
    let word = check_word(word)?;
    let mut table = [[0u8; WIDTH]; ROWS];
    count_prefixes(&word, &mut table);
    let counted = CountedWord::new(&word, &table);
    let mut marks = [0u8; CANDIDATES];
    mark_squares(&counted, &mut marks);
    let marked = Marked {
        word: &counted,
        marks: &marks,
    };
    Ok(count_words(&marked))
}
