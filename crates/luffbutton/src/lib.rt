// The calls for C, and for Rust by way of C: one exported function for each open call, over that call or, of a tracker's, over its form in place. A
// function returns the answer's numbers as a struct (a fresh tracker has none), promises what the call promises, by the same definitions, and asks
// nothing of the caller. Here are the calls on a word, on a pattern and a record, and on an alphabet and a length, but the counts, which are in counts.rt; the tracker's
// are in fields.rt.
#![tactic(auto)]

mod counts;
mod fields;
mod numbers;

ghost use Rattle.std.specs.Prelude.{◌≡◌};
ghost use Rattle.abelian.specs.Periods.{pair};
ghost use Rattle.abelian.specs.Calls.{judging, plain_listing, skipping_listing, full_listing, scaled_listing, square_listing, run_listing, window_listing, square_free_listing, cover_answer, reporting};
ghost use Rattle.luffbutton.specs.Numbers.{verdict_numbers, cover_numbers, listed_numbers, scaled_numbers, wrote_numbers};

use abelian::{Alphabet, Head, Length, Period};
use numbers::{LuffCover, LuffListed, LuffScaled, LuffVerdict, LuffWrote};

// Judges a pair.
#[unsafe(no_mangle)]
pub extern "C" fn luff_judge(word: &[u8], head: Head, period: Period) -> LuffVerdict
    ensures { verdict_numbers result ≡ judging word.now (pair head.0 period.0) }
{
    judge::judge(word, head, period).into()
}

// Lists the Abelian periods of the word by the plain lister.
#[unsafe(no_mangle)]
pub extern "C" fn luff_list_plain(word: &[u8], out: &mut [u32]) -> LuffListed
    ensures { listed_numbers result out.new ≡ plain_listing word.now out.old }
{
    listers::list_plain(word, out).into()
}

// Lists the Abelian periods of the word by the skipping lister.
#[unsafe(no_mangle)]
pub extern "C" fn luff_list_skipping(word: &[u8], out: &mut [u32]) -> LuffListed
    ensures { listed_numbers result out.new ≡ skipping_listing word.now out.old }
{
    listers::list_skipping(word, out).into()
}

// Lists the full periods of the word by the plain path.
#[unsafe(no_mangle)]
pub extern "C" fn luff_list_full(word: &[u8], out: &mut [u32]) -> LuffWrote
    ensures { wrote_numbers result out.new ≡ full_listing word.now out.old }
{
    full_periods::list_full(word, out).into()
}

// Lists the full periods of the word by the scaled path, with s and T.
#[unsafe(no_mangle)]
pub extern "C" fn luff_list_full_scaled(word: &[u8], out: &mut [u32]) -> LuffScaled
    ensures { scaled_numbers result out.new ≡ scaled_listing word.now out.old }
{
    full_periods::list_full_scaled(word, out).into()
}

// Lists the Abelian squares of the word.
#[unsafe(no_mangle)]
pub extern "C" fn luff_list_squares(word: &[u8], out: &mut [u32]) -> LuffWrote
    ensures { wrote_numbers result out.new ≡ square_listing word.now out.old }
{
    squares::list_squares(word, out).into()
}

// Lists the Abelian runs of the word.
#[unsafe(no_mangle)]
pub extern "C" fn luff_list_runs(word: &[u8], out: &mut [u32]) -> LuffWrote
    ensures { wrote_numbers result out.new ≡ run_listing word.now out.old }
{
    runs::list_runs(word, out).into()
}

// Lists the windows of a record that have a pattern's vector.
#[unsafe(no_mangle)]
pub extern "C" fn luff_list_windows(pattern: &[u8], record: &[u8], out: &mut [u32]) -> LuffWrote
    ensures { wrote_numbers result out.new ≡ window_listing pattern.now «record».now out.old }
{
    windows::list_windows(pattern, record, out).into()
}

// Lists the words without an Abelian square over the first letters, of one length.
#[unsafe(no_mangle)]
pub extern "C" fn luff_list_square_free(
    alphabet: Alphabet,
    length: Length,
    out: &mut [u32],
) -> LuffWrote
    ensures { wrote_numbers result out.new ≡ square_free_listing alphabet.0 length.0 out.old }
{
    patterns::list_square_free(alphabet, length, out).into()
}

// Searches for a cover of the word.
#[unsafe(no_mangle)]
pub extern "C" fn luff_find_cover(word: &[u8]) -> LuffCover
    ensures { cover_numbers result ≡ cover_answer word.now }
{
    covers::find_cover(word).into()
}

// Writes the report of the word.
#[unsafe(no_mangle)]
pub extern "C" fn luff_report(word: &[u8], out: &mut [u32]) -> LuffWrote
    ensures { wrote_numbers result out.new ≡ reporting word.now out.old }
{
    report::report(word, out).into()
}
