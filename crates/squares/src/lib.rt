// Abelian squares of a word (document 003): two parts side by side with equal count vectors. A candidate is a half length with a
// start; each candidate is compared once and marked, so that a list that is too long is refused before the first place of the slice
// is written. The table and the marks are arrays of the call that needs them, and are lent, so that each lies on the stack once.
#![tactic(auto, unfolding(abelian::specs::Words::longest))]

pub mod marks;
mod output;

ghost use Rattle.std.specs.Prelude.{◌≡◌, length};
ghost use Rattle.abelian.specs.Squares.{square_words};
ghost use Rattle.abelian.specs.Answers.{answered_wrote, answered_needed};
ghost use Rattle.abelian.specs.Calls.{square_listing, square_count};

use abelian::{LONGEST, Refusal};
use marks::{Marked, mark_squares};
use output::write_squares;
use words::{CountedWord, ROWS, WIDTH, Word, check_word, count_prefixes};

// The candidates of the longest word, of which no word has more.
pub const CANDIDATES: usize = (LONGEST / 2) * (LONGEST / 2);

// Writes all Abelian squares of the word, by half length and then by start.
pub fn list_squares(word: &[u8], out: &mut [u32]) -> Result<usize, Refusal>
    ensures { answered_wrote result out.new ≡ square_listing word.now out.old }
{
    let word = check_word(word)?;
    let mut table = [[0u8; WIDTH]; ROWS];
    count_prefixes(&word, &mut table);
    let counted = CountedWord::new(&word, &table);
    let mut marks = [0u8; CANDIDATES];
    let needed = mark_squares(&counted, &mut marks);
    if needed > out.len() {
        return Err(Refusal::SliceTooShort(needed));
    }
    let marked = Marked {
        word: &counted,
        marks: &marks,
    };
    write_squares(&marked, out);
    Ok(needed)
}

// The number of squares of a word that may be taken. For the count and the crates above.
pub fn number_of_squares(word: &Word) -> usize
    ensures { result ≡ length (square_words word.now) }
{
    let mut table = [[0u8; WIDTH]; ROWS];
    count_prefixes(word, &mut table);
    let mut marks = [0u8; CANDIDATES];
    // It is at most the longest, so that every candidate has a place.
    let _ = word.len();
    mark_squares(&CountedWord::new(word, &table), &mut marks)
}

// How many squares the word has.
pub fn count_squares(word: &[u8]) -> Result<usize, Refusal>
    ensures { answered_needed result ≡ square_count word.now }
{
    let word = check_word(word)?;
    Ok(number_of_squares(&word))
}
