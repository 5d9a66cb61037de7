// The parts of a report, counted and written.
ghost use Rattle.std.specs.Prelude.{◌≡◌, ◌≤◌, length};
ghost use Rattle.abelian.specs.Covers.{cover_length};
ghost use Rattle.abelian.specs.Output.{report_head, fill};
ghost use Rattle.abelian.specs.Calls.{report_words};

use abelian::{Kind, output_word};
use covers::cover_length;
use full_periods::{list_full_scaled, number_of_full_periods};
use listers::candidates::number_of_periods;
use listers::list_skipping;
use squares::{list_squares, number_of_squares};
use words::Word;

// The report's head: n above, and below the cover length, or 0 where there is none, as the output word has it.
#[tactic(auto, using(crate::proofs::Heads::unwrapped, crate::proofs::Heads::cover_fits), unfolding(abelian::specs::Output::report_head, abelian::specs::Words::longest))]
fn head_word(word: &Word) -> u32
    ensures { result ≡ report_head (length word.now) (cover_length word.now) }
{
    let cover = cover_length(word).unwrap_or(0);
    output_word(Kind::Report, word.len(), cover)
}

// The number of words of the report.
pub(crate) fn words_needed(word: &Word) -> usize
    ensures { result ≡ length (report_words word.now) }
{
    // It is at most the longest, so that the sum fits.
    let _ = word.len();
    let full = number_of_full_periods(word);
    let periods = number_of_periods(word);
    let squares = number_of_squares(word);
    1 + full + periods + squares
}

// Writes the report into a slice with places enough, and returns the number of its words: the head stands in the first place, and the
// remaining part is lent to each lister in turn. It stays a function by itself: written out inside the report, it would have the skipping lister's board
// on the stack while the report is counted.
#[inline(never)]
pub(crate) fn write_parts(word: &Word, out: &mut [u32]) -> usize
    requires { length (report_words word.now) ≤ length out.old }
    ensures value { result ≡ length (report_words word.now) }
    ensures out_after { out.new ≡ fill (report_words word.now) out.old }
{
    let letters = word.letters();
    out[0] = head_word(word);
    let full_at = 1;
    let full = list_full_scaled(letters, &mut out[full_at..]).unwrap();
    let periods_at = full_at + full.words;
    let periods = list_skipping(letters, &mut out[periods_at..]).unwrap();
    let squares_at = periods_at + periods.words;
    let squares = list_squares(letters, &mut out[squares_at..]).unwrap();
    squares_at + squares
}
