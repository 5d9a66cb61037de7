// Lines of text, from numbers and from the output words of a report. Each function writes to the first places of a slice, keeps the
// rest of it, and returns the number of bytes written: the program has no heap, so no `String`, and `write!` would not promise each byte.
ghost use Rattle.std.specs.Prelude.{◌≤◌, length};
ghost use Rattle.abelian.specs.Lists.{each};
ghost use Rattle.abelian.specs.Periods.{pair};
ghost use Rattle.cycles.specs.Text.{decimal, spaced, line, Written};
ghost use Rattle.cycles.specs.Lines.{period_line, cover_line, refusal_line};
ghost use Rattle.cycles.specs.Reports.{line_of, text_of};

use abelian::{Head, KIND, Kind, Period, Refusal, UPPER};

// Writes bytes.
fn write_bytes(bytes: &[u8], text: &mut [u8]) -> usize
    requires { length bytes.now ≤ length text.old }
    ensures { Written bytes.now text.old text.new result }
{
    let n = bytes.len();
    text[..n].copy_from_slice(bytes);
    n
}

// Writes a number in decimal.
fn write_decimal(n: usize, text: &mut [u8]) -> usize
    requires { length (decimal n) ≤ length text.old }
    ensures { Written (decimal n) text.old text.new result }
{
    let mut digits = [0u8; 20];
    let count = io::decimal(n as u64, &mut digits);
    write_bytes(&digits[..count], text)
}

// Writes a number with a space before it.
fn write_spaced(n: usize, text: &mut [u8]) -> usize
    requires { length (spaced n) ≤ length text.old }
    ensures { Written (spaced n) text.old text.new result }
{
    text[0] = b' ';
    1 + write_decimal(n, &mut text[1..])
}

// Writes numbers with a space before each.
fn write_numbers(numbers: &[usize], text: &mut [u8]) -> usize
    requires { length (each numbers.now spaced) ≤ length text.old }
    ensures { Written (each numbers.now spaced) text.old text.new result }
{
    let mut at = 0;
    for number in numbers {
        at += write_spaced(*number, &mut text[at..]);
    }
    at
}

// Writes a line: a name, numbers with a space before each, and the line's end.
fn write_line(name: &[u8], numbers: &[usize], text: &mut [u8]) -> usize
    requires { length (line name.now numbers.now) ≤ length text.old }
    ensures { Written (line name.now numbers.now) text.old text.new result }
{
    let from = write_bytes(name, text);
    let end = from + write_numbers(numbers, &mut text[from..]);
    text[end] = b'\n';
    end + 1
}

// Writes the line of a refusal.
pub(crate) fn write_refusal(refusal: Refusal, text: &mut [u8]) -> usize
    requires { length (refusal_line refusal) ≤ length text.old }
    ensures { Written (refusal_line refusal) text.old text.new result }
{
    let number = refusal.number();
    let value = refusal.value();
    write_line(b"refused", &[number, value], text)
}

// Writes the line of an Abelian period, head and period apart as in the output word.
fn write_period(head: Head, period: Period, text: &mut [u8]) -> usize
    requires { length (period_line (pair head.0 period.0)) ≤ length text.old }
    ensures { Written (period_line (pair head.0 period.0)) text.old text.new result }
{
    write_line(b"period", &[head.0, period.0], text)
}

// Writes the line of an output word, by its kind.
fn write_word(word: u32, text: &mut [u8]) -> usize
    requires { length (line_of word) ≤ length text.old }
    ensures { Written (line_of word) text.old text.new result }
{
    let upper = (word / UPPER % UPPER) as usize;
    let lower = (word % UPPER) as usize;
    let Ok(kind) = Kind::try_from(word / KIND) else {
        return 0;
    };
    match kind {
        Kind::Period => write_period(Head(lower), Period(upper), text),
        Kind::Square => write_line(b"square", &[lower, upper], text),
        Kind::Full => write_line(b"full", &[upper], text),
        Kind::Report => write_line(b"n", &[upper], text),
        _ => 0,
    }
}

// Writes the lines of output words, one behind the other. It and `write_numbers` stay two functions: one that takes what writes a piece as a closure
// would say in its contract what that asks and writes at every slice, and be no plainer.
fn write_words(words: &[u32], text: &mut [u8]) -> usize
    requires { length (each words.now line_of) ≤ length text.old }
    ensures { Written (each words.now line_of) text.old text.new result }
{
    let mut at = 0;
    for word in words {
        at += write_word(*word, &mut text[at..]);
    }
    at
}

// Writes the line that says whether a cover was found, which says no more than that, so that a bool is enough.
fn write_cover(found: bool, text: &mut [u8]) -> usize
    requires { length (cover_line found) ≤ length text.old }
    ensures { Written (cover_line found) text.old text.new result }
{
    if found {
        write_bytes(b"cover yes\n", text)
    } else {
        write_bytes(b"cover no\n", text)
    }
}

// Writes the text of a report: the lines of its words, and behind them that of the cover. The first word has the cover's length, or 0 where
// there is none.
pub(crate) fn write_report(words: &[u32], text: &mut [u8]) -> usize
    requires in_bounds { 1 ≤ length words.now }
    requires words_in_bounds { length (text_of words.now) ≤ length text.old }
    ensures { Written (text_of words.now) text.old text.new result }
{
    let at = write_words(words, text);
    at + write_cover(0 < words[0] % UPPER, &mut text[at..])
}
