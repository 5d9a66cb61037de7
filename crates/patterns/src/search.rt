// The search for square-free words, depth first over their beginnings. A beginning is known by totals: the total of a stretch is a number in base 32
// that has for each letter how often it stands there, so that two stretches of a pattern have equal totals exactly where they have equal count vectors. A letter is tried only against the
// squares that end at it, and a beginning with a square is not continued.
ghost use Rattle.std.specs.Prelude.{◌≡◌, ◌+◌, ◌≤◌, length, drop};
ghost use Rattle.abelian.specs.Patterns.{largest_alphabet};
ghost use Rattle.patterns.specs.Search.{Totals, Numbered, ends_square, found, stored};

use abelian::{Alphabet, Kind, Length, store_word};

// The base of totals. A letter's weight is that of the letter before it times this.
const BASE: u32 = 32;

// Whether a square ends with the last letter of a beginning: for some half length the last half's total is that of the half before it. The totals are those of the
// beginning and of its own beginnings, the longest first.
fn ends_square(totals: &[u32]) -> bool
    requires { Totals totals.now 0 }
    ensures { result ≡ ends_square totals.now }
{
    let whole = totals[0];
    for half in 1..(totals.len() + 1) / 2 {
        let middle = totals[half];
        let front = totals[2 * half];
        if whole + front == 2 * middle {
            return true;
        }
    }
    false
}

// Finds the square-free words that go on from a beginning by so many letters, in alphabetical order, and writes them from the place `at` on, as far as there are places.
// Returns the place behind the last of them. The beginning is given by its totals, which stand from the place that is the number of letters left on, and by its number
// in base k. The places before these are written on the way down, so that the totals are no shorter slice.
// The place is handed on beside the slice and not as a part of it, which would be no plainer: it counts on where the slice has no more places.
pub(crate) fn search(
    alphabet: Alphabet,
    left: Length,
    totals: &mut [u32],
    number: u32,
    at: usize,
    out: &mut [u32],
) -> usize
    requires alphabet_le_largest_alphabet { alphabet.0 ≤ largest_alphabet }
    requires totals { Totals totals.old left.0 }
    requires numbered { Numbered left.0 number at }
    ensures value { result ≡ at + length (found alphabet.0 left.0 (drop left.0 totals.old) number) }
    ensures totals_unchanged { drop left.0 totals.new ≡ drop left.0 totals.old }
    ensures out_after { out.new ≡ stored at (found alphabet.0 left.0 (drop left.0 totals.old) number) out.old }
{
    let k = alphabet.0;
    let last = left.0;
    if last == 0 {
        store_word(out, at, Kind::Pattern.word() + number);
        return at + 1;
    }
    let next = last - 1;
    let mut to = at;
    let mut weight = 1;
    let base = k as u32;
    let longer = number * base;
    for c in 0..k {
        totals[next] = totals[last] + weight;
        weight *= BASE;
        if !ends_square(&totals[next..]) {
            let extended = longer + c as u32;
            to = search(alphabet, Length(next), totals, extended, to, out);
        }
    }
    to
}
