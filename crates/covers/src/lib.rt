// Abelian covers (document 003): the search for the cover length of a word, in one pass from both ends.
#![tactic(auto)]

ghost use Rattle.std.specs.Prelude.{◌≡◌};
ghost use Rattle.abelian.specs.Lists.{nonzero};
ghost use Rattle.abelian.specs.Covers.{cover_length};
ghost use Rattle.abelian.specs.Answers.{answered_covered};
ghost use Rattle.abelian.specs.Calls.{cover_answer};
ghost use Rattle.covers.specs.Differing.{differing, one_more, CanCount};

use abelian::{FIRST_LETTER, LETTERS, Refusal};
use words::{Word, check_word};

// Counts one more of the letter, and returns at how many letters the two vectors differ then, from the number before: only this
// letter's counts can have become unequal or equal.
// The vectors and the number are parameters and no struct, since the two calls for a turn exchange the vectors. It and `change` of `windows` stay two functions:
// one for both would be handed the rule of the entries too, since there an entry is a difference modulo 2^8, and is compared with 0.
fn count_letter(
    counts: &mut [u8; LETTERS],
    other: &[u8; LETTERS],
    letter: u8,
    differ: usize,
) -> usize
    requires { CanCount counts.old other.now letter differ }
    ensures counts_after { counts.new ≡ one_more counts.old letter }
    ensures value { result ≡ differing (one_more counts.old letter) other.now }
{
    let place = (letter - FIRST_LETTER) as usize;
    let before = counts[place];
    let after = before + 1;
    counts[place] = after;
    let unchanged = other[place];
    differ + (before == unchanged) as usize - (after == unchanged) as usize
}

// The cover length of the word, if it has one. The first and the last m letters have equal vectors exactly where the first and the last n - m
// have, so that it is enough to count from both ends up to the middle; the longest such ends leave the smallest m. For the crates above.
pub fn cover_length(word: &Word) -> Option<usize>
    ensures { result ≡ nonzero (cover_length word.now) }
{
    let letters = word.letters();
    let mut first = [0u8; LETTERS];
    let mut last = [0u8; LETTERS];
    let mut differ = 0;
    let mut found = None;
    for left in 0..letters.len() / 2 {
        let right = letters.len() - 1 - left;
        differ = count_letter(&mut first, &last, letters[left], differ);
        differ = count_letter(&mut last, &first, letters[right], differ);
        if differ == 0 {
            found = Some(right);
        }
    }
    found
}

// The cover length of the word, or that it has no cover.
pub fn find_cover(word: &[u8]) -> Result<Option<usize>, Refusal>
    ensures { answered_covered result ≡ cover_answer word.now }
{
    let word = check_word(word)?;
    Ok(cover_length(&word))
}
