// Full periods of a word, listed and counted by two paths: the plain one counts every block, the scaled one goes by the scaled positions
// of document 002. Both mark the full periods in a table, which is counted and then, for a list, written, so that a list that is too long
// is refused before the first place of the slice is written.
#![tactic(auto)]

mod counts;
mod marks;
mod plain;
mod scaled;

ghost use Rattle.std.specs.Prelude.{◌≡◌, length};
ghost use Rattle.abelian.specs.Calls.{full_words, full_listing, scaled_listing, full_count};
ghost use Rattle.abelian.specs.Answers.{answered_wrote, answered_scaled, answered_needed};

use abelian::{Refusal, Scaled};
use marks::Marked;
use scaled::ScaledPath;
use words::{Word, check_word};

// Writes the full periods by rising p, found by counting every block, and answers how many words it wrote.
pub fn list_full(word: &[u8], out: &mut [u32]) -> Result<usize, Refusal>
    ensures { answered_wrote result out.new ≡ full_listing word.now out.old }
{
    let word = check_word(word)?;
    let marks = plain::mark_full(&word);
    let marked = Marked {
        marks: &marks,
        n: word.len(),
        step: 1,
    };
    marked.list(out)
}

// Writes the full periods by rising p, found by the scaled positions, and answers how many words it wrote, s and T. It and the plain list stay two
// functions, and so do the two counts: the scaled list answers s and T too, and each path makes its own marks with their step, so that one function over both would be no shorter.
pub fn list_full_scaled(word: &[u8], out: &mut [u32]) -> Result<Scaled, Refusal>
    ensures { answered_scaled result out.new ≡ scaled_listing word.now out.old }
{
    let word = check_word(word)?;
    let ScaledPath { s, t, marks } = scaled::find_path(&word);
    let marked = Marked {
        marks: &marks,
        n: word.len(),
        step: s,
    };
    let words = marked.list(out)?;
    Ok(Scaled { words, s, t })
}

// The number of full periods of a word, by the scaled path. For the count and the crates above.
pub fn number_of_full_periods(word: &Word) -> usize
    ensures { result ≡ length (full_words word.now) }
{
    let ScaledPath { s, marks, .. } = scaled::find_path(word);
    let marked = Marked {
        marks: &marks,
        n: word.len(),
        step: s,
    };
    marked.count()
}

// How many full periods the plain path writes, found as it finds them.
pub fn count_full(word: &[u8]) -> Result<usize, Refusal>
    ensures { answered_needed result ≡ full_count word.now }
{
    let word = check_word(word)?;
    let marks = plain::mark_full(&word);
    let marked = Marked {
        marks: &marks,
        n: word.len(),
        step: 1,
    };
    Ok(marked.count())
}

// How many full periods the scaled path writes, found as it finds them.
pub fn count_full_scaled(word: &[u8]) -> Result<usize, Refusal>
    ensures { answered_needed result ≡ full_count word.now }
{
    let word = check_word(word)?;
    Ok(number_of_full_periods(&word))
}
