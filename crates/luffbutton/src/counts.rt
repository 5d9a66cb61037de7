// The counts on a word, on a pattern and a record, and on an alphabet and a length, for C: one exported function for each list call, which answers how many words that call writes.
ghost use Rattle.std.specs.Prelude.{◌≡◌};
ghost use Rattle.abelian.specs.Calls.{period_count, full_count, square_count, run_count, window_count, square_free_count, report_count};
ghost use Rattle.luffbutton.specs.Numbers.{counted_numbers};

use crate::numbers::LuffCounted;
use abelian::{Alphabet, Length};

// Counts the words that the plain lister writes.
#[unsafe(no_mangle)]
pub extern "C" fn luff_count_plain(word: &[u8]) -> LuffCounted
    ensures { counted_numbers result ≡ period_count word.now }
{
    listers::count_plain(word).into()
}

// Counts the words that the skipping lister writes.
#[unsafe(no_mangle)]
pub extern "C" fn luff_count_skipping(word: &[u8]) -> LuffCounted
    ensures { counted_numbers result ≡ period_count word.now }
{
    listers::count_skipping(word).into()
}

// Counts the full periods of the word by the plain path.
#[unsafe(no_mangle)]
pub extern "C" fn luff_count_full(word: &[u8]) -> LuffCounted
    ensures { counted_numbers result ≡ full_count word.now }
{
    full_periods::count_full(word).into()
}

// Counts the full periods of the word by the scaled path.
#[unsafe(no_mangle)]
pub extern "C" fn luff_count_full_scaled(word: &[u8]) -> LuffCounted
    ensures { counted_numbers result ≡ full_count word.now }
{
    full_periods::count_full_scaled(word).into()
}

// Counts the Abelian squares of the word.
#[unsafe(no_mangle)]
pub extern "C" fn luff_count_squares(word: &[u8]) -> LuffCounted
    ensures { counted_numbers result ≡ square_count word.now }
{
    squares::count_squares(word).into()
}

// Counts the words of the Abelian runs of the word, two for each.
#[unsafe(no_mangle)]
pub extern "C" fn luff_count_runs(word: &[u8]) -> LuffCounted
    ensures { counted_numbers result ≡ run_count word.now }
{
    runs::count_runs(word).into()
}

// Counts the windows of a record that have a pattern's vector.
#[unsafe(no_mangle)]
pub extern "C" fn luff_count_windows(pattern: &[u8], record: &[u8]) -> LuffCounted
    ensures { counted_numbers result ≡ window_count pattern.now «record».now }
{
    windows::count_windows(pattern, record).into()
}

// Counts the words without an Abelian square over the first letters, of one length.
#[unsafe(no_mangle)]
pub extern "C" fn luff_count_square_free(alphabet: Alphabet, length: Length) -> LuffCounted
    ensures { counted_numbers result ≡ square_free_count alphabet.0 length.0 }
{
    patterns::count_square_free(alphabet, length).into()
}

// Counts the words of the report of the word.
#[unsafe(no_mangle)]
pub extern "C" fn luff_count_report(word: &[u8]) -> LuffCounted
    ensures { counted_numbers result ≡ report_count word.now }
{
    report::count_report(word).into()
}
