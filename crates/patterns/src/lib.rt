// Patterns without a repeat (C-20): every word over the first letters, of one length, that has no Abelian square, in alphabetical order.
#![tactic(auto)]

mod search;

ghost use Rattle.std.specs.Prelude.{◌≡◌, length};
ghost use Rattle.abelian.specs.Patterns.{pattern_words};
ghost use Rattle.abelian.specs.Refusals.{square_free_refusal};
ghost use Rattle.abelian.specs.Answers.{accepted_unless, answered_wrote, answered_needed};
ghost use Rattle.abelian.specs.Calls.{square_free_listing, square_free_count};
ghost use Rattle.patterns.specs.Search.{stored};

use abelian::{Alphabet, LARGEST_ALPHABET, LONGEST_SQUARE_FREE, Length, Refusal};
use search::search;
use std::marker::Model;

// An alphabet and a length for which the words may be searched. In contracts they are the two numbers.
#[derive(Drop)]
struct Sizes {
    alphabet: Alphabet,
    length: Length,
}

impl Model for Sizes {
    ghost use Rattle.std.specs.Prelude.{◌≤◌};
    ghost use Rattle.abelian.specs.Patterns.{largest_alphabet, longest_square_free};
    ghost use Rattle.patterns.specs.Search.{Searched};

    ghost Value = { Searched };

    ghost view = { λ sizes. record { letters = sizes.alphabet.0; length = sizes.length.0 } };

    ghost invariant = { λ sizes. (sizes.alphabet.0 ≤ largest_alphabet) × (sizes.length.0 ≤ longest_square_free) };
}

// The alphabet and the length, if a call may take them: not if the alphabet has no letter or more than the most, and not if the length is above the longest.
fn check_sizes(alphabet: Alphabet, length: Length) -> Result<Sizes, Refusal>
    ensures { result ≡ accepted_unless (square_free_refusal alphabet.0 length.0 0 0) (record { letters = alphabet.0; length = length.0 }) }
{
    let k = alphabet.0;
    let n = length.0;
    if k < 1 || LARGEST_ALPHABET < k {
        return Err(Refusal::SquareFreeAlphabet);
    }
    if LONGEST_SQUARE_FREE < n {
        return Err(Refusal::SquareFreeLength);
    }
    Ok(Sizes { alphabet, length })
}

// Finds all square-free words from the empty beginning on, writes as many as there are places for, and returns their number.
#[tactic(auto, unfolding(abelian::specs::Patterns::longest_square_free))]
fn find_all(sizes: &Sizes, out: &mut [u32]) -> usize
    ensures value { result ≡ length (pattern_words sizes.now.letters sizes.now.length) }
    ensures out_after { out.new ≡ stored 0 (pattern_words sizes.now.letters sizes.now.length) out.old }
{
    let mut totals = [0u32; LONGEST_SQUARE_FREE + 1];
    let to = sizes.length.0 + 1;
    search(sizes.alphabet, sizes.length, &mut totals[0..to], 0, 0, out)
}

// The number of square-free words: a search that has no places to write to.
fn number_of_words(sizes: &Sizes) -> usize
    ensures { result ≡ length (pattern_words sizes.now.letters sizes.now.length) }
{
    find_all(sizes, &mut [])
}

// Writes the square-free words over so many letters and of this length, in alphabetical order. They are counted first, by a search that writes nothing, so that a list
// that is too long is refused before the first place is written.
pub fn list_square_free(
    alphabet: Alphabet,
    length: Length,
    out: &mut [u32],
) -> Result<usize, Refusal>
    ensures { answered_wrote result out.new ≡ square_free_listing alphabet.0 length.0 out.old }
{
    let sizes = check_sizes(alphabet, length)?;
    let needed = number_of_words(&sizes);
    if needed > out.len() {
        return Err(Refusal::SliceTooShort(needed));
    }
    Ok(find_all(&sizes, out))
}

// How many square-free words over so many letters there are of this length.
pub fn count_square_free(alphabet: Alphabet, length: Length) -> Result<usize, Refusal>
    ensures { answered_needed result ≡ square_free_count alphabet.0 length.0 }
{
    let sizes = check_sizes(alphabet, length)?;
    Ok(number_of_words(&sizes))
}
