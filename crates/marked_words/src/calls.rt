// The calls, by the bytes of a line.
ghost use Rattle.std.specs.Prelude.{◌≤◌, IfSome};

use crate::answers::{say_count, say_cover, say_list, say_scale, say_trials, say_verdict};
use crate::text::{Form, UNWRITTEN, say_kept};
use crate::tracked::{replayed, tracked};
use abelian::{Alphabet, Head, LONGEST_RECORD, Length, Period, Refusal};
use covers::find_cover;
use full_periods::{count_full, count_full_scaled, list_full, list_full_scaled};
use judge::judge;
use listers::{count_plain, count_skipping, list_plain, list_skipping};
use patterns::{count_square_free, list_square_free};
use report::{count_report, report};
use runs::{count_runs, list_runs};
use squares::{count_squares, list_squares};
use std::io;
use std::io::Write;
use windows::{count_windows, list_windows};

// Room for a record that is one byte too long.
const ROOM: usize = LONGEST_RECORD + 1;

// The most places of a slice that a line can ask for.
const MOST_PLACES: usize = 99;

// The number of a digit, 0 for any other byte.
fn digit(byte: u8) -> usize
    ensures { result ≤ 9 }
{
    (byte as char).to_digit(10).unwrap_or(0) as usize
}

// The number of two digits.
fn number(digits: [u8; 2]) -> usize
    ensures { result ≤ 99 }
{
    10 * digit(digits[0]) + digit(digits[1])
}

// With how many places a list is called, of which the two bytes are the digits, or None where they are `??`, for its count.
fn places(digits: [u8; 2]) -> Option<usize>
    ensures { IfSome result (λ n. n ≤ 99) }
{
    match digits {
        [b'?', _] => None,
        _ => Some(number(digits)),
    }
}

// A head, a period, or over how many letters a word is.
fn quantity(byte: u8) -> usize {
    match byte {
        b'*' => usize::MAX,
        _ => digit(byte),
    }
}

// The two numbers of a call of square-free words: over as many letters as the first byte says and of the length that the last two say, or the
// largest number for `**`.
fn free_numbers(body: &[u8]) -> Option<(Alphabet, Length)> {
    match body {
        [letters, _, b'*', _, ..] => Some((Alphabet(quantity(*letters)), Length(usize::MAX))),
        [letters, _, tens, ones, ..] => {
            Some((Alphabet(quantity(*letters)), Length(number([*tens, *ones]))))
        }
        _ => None,
    }
}

// As many bytes as there is room for, one byte at every place but the given one, and the other there.
fn filled(byte: u8, place: usize, other: u8) -> [u8; ROOM]
    requires { place ≤ 65536 }
{
    let mut bytes = [byte; ROOM];
    bytes[place] = other;
    bytes
}

// A call of a list or of its count, which is known by the letter. The two bytes say with how many places the list is called, or that it is counted.
// The record is for windows alone, whose pattern is the body; of square-free words the body is their two numbers.
#[derive(Clone, Copy)]
struct Call<'a> {
    letter: u8,
    digits: [u8; 2],
    body: &'a [u8],
    record: &'a [u8],
}

impl Call<'_> {
    // Makes the list call, and prints those of its numbers that are no words. The letters are no enum, which would need a case for any other letter: that is the report, with
    // its words by kind.
    fn list<W: Write>(self, to: &mut W, out: &mut [u32]) -> io::Result<Result<usize, Refusal>> {
        let body = self.body;
        match self.letter {
            b'n' => say_trials(to, list_plain(body, out)),
            b'g' => say_trials(to, list_skipping(body, out)),
            b'l' => Ok(list_full(body, out)),
            b'd' => say_scale(to, list_full_scaled(body, out)),
            b's' => Ok(list_squares(body, out)),
            b'f' => Ok(list_runs(body, out)),
            b'w' => Ok(list_windows(body, self.record, out)),
            b'q' => Ok(free_numbers(body).map_or(Ok(0), |(alphabet, length)| {
                list_square_free(alphabet, length, out)
            })),
            b'y' => replayed(to, body, out),
            b'k' => tracked(to, body, out),
            _ => Ok(report(body, out)),
        }
    }

    // Makes the list call with a slice of so many places, all unwritten, and prints what it answered and how many places are as they were. The form goes by the letter, which is no enum.
    fn run_list<W: Write>(self, to: &mut W, places: usize) -> io::Result<()>
        requires { places ≤ 99 }
    {
        let mut all = [UNWRITTEN; MOST_PLACES];
        let out = &mut all[..places];
        let answer = self.list(to, out)?;
        let form = match self.letter {
            b't' => Form::Number,
            _ => Form::ByKind,
        };
        say_list(to, form, answer, out)?;
        say_kept(to, out)
    }

    // Makes the count of the list call, by a second match on the letter: one that hands a closure for the list and one for the count to what runs them takes 23 lines more.
    fn count(self) -> Result<usize, Refusal> {
        let body = self.body;
        match self.letter {
            b'n' => count_plain(body),
            b'g' => count_skipping(body),
            b'l' => count_full(body),
            b'd' => count_full_scaled(body),
            b's' => count_squares(body),
            b'f' => count_runs(body),
            b'w' => count_windows(body, self.record),
            b'q' => free_numbers(body).map_or(Ok(0), |(alphabet, length)| {
                count_square_free(alphabet, length)
            }),
            _ => count_report(body),
        }
    }

    // Makes the list call, or its count.
    fn run<W: Write>(self, to: &mut W) -> io::Result<()> {
        match places(self.digits) {
            Some(places) => self.run_list(to, places),
            None => say_count(to, self.count()),
        }
    }

    // Makes the call on a long record, which is one byte so many times and then the other.
    fn run_long<W: Write>(self, to: &mut W, byte: u8, times: usize, other: u8) -> io::Result<()>
        requires { times ≤ 65536 }
    {
        let bytes = filled(byte, times, other);
        let long = Call {
            record: &bytes[..times + 1],
            ..self
        };
        long.run(to)
    }

    // Makes the call on the record that its record stands for: a long one if that has three bytes of which the first is `*` or `#`, and else itself.
    fn run_record<W: Write>(self, to: &mut W) -> io::Result<()> {
        match self.record {
            [b'*', byte, other] => self.run_long(to, *byte, LONGEST_RECORD - 1, *other),
            [b'#', byte, other] => self.run_long(to, *byte, LONGEST_RECORD, *other),
            _ => self.run(to),
        }
    }
}

// The call of windows on the pattern before the first `@` and the record behind it, which is empty where there is no `@`.
fn of_windows(digits: [u8; 2], body: &[u8]) -> Call<'_> {
    let mut parts = body.splitn(2, |byte| *byte == b'@');
    Call {
        letter: b'w',
        digits,
        body: parts.next().unwrap_or(b""),
        record: parts.next().unwrap_or(b""),
    }
}

// Makes the call that is known by the letter, and prints what it answered. The two bytes are the judge's head and period, or say with how many
// places a list is called, or that it is counted. One match on the letter: the gate refuses a function that hands out function pointers.
pub(crate) fn run_call<W: Write>(
    to: &mut W,
    letter: u8,
    digits: [u8; 2],
    body: &[u8],
) -> io::Result<()> {
    match letter {
        b'e' => {
            let [head, period] = digits.map(quantity);
            say_verdict(to, judge(body, Head(head), Period(period)))
        }
        b'r' => say_cover(to, find_cover(body)),
        b'w' => of_windows(digits, body).run_record(to),
        _ => {
            let call = Call {
                letter,
                digits,
                body,
                record: b"",
            };
            call.run(to)
        }
    }
}
