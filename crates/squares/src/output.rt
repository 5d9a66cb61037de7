// Output words of squares, written from the marks of the candidates.
ghost use Rattle.std.specs.Prelude.{◌≡◌, map, ◌≤◌, length};
ghost use Rattle.abelian.specs.Output.{square_word, fill};
ghost use Rattle.abelian.specs.Squares.{square_words};
ghost use Rattle.abelian.specs.Words.{longest};
ghost use Rattle.squares.specs.Marks.{marked_starts};

use crate::marks::Marked;
use abelian::{Kind, output_word};

// Writes the words of the marked starts of one half length into the first places of the slice, and returns how many they are. The board's rows are written by a loop of their own, of
// entries that are 0: one for both would take the entry, and the word as a closure, and be no plainer.
fn write_starts(half: usize, marks: &[u8], out: &mut [u32]) -> usize
    requires half_le_longest { half ≤ longest }
    requires marks_len_bound { length marks.now ≤ longest }
    requires marks_in_bounds { length (marked_starts marks.now) ≤ length out.old }
    ensures value { result ≡ length (marked_starts marks.now) }
    ensures out_after { out.new ≡ fill (map (square_word half) (marked_starts marks.now)) out.old }
{
    let mut at = 0;
    for (i, mark) in marks.iter().enumerate() {
        if *mark == 1 {
            out[at] = output_word(Kind::Square, half, i + 1);
            at += 1;
        }
    }
    at
}

// Writes the words of all squares into the first places of the slice, each half length's behind those of the smaller ones. `runs` has such a loop over what it writes: a closure's contract
// would be as long.
pub(crate) fn write_squares(marked: &Marked, out: &mut [u32])
    requires { length (square_words marked.now.word.now) ≤ length out.old }
    ensures { out.new ≡ fill (square_words marked.now.word.now) out.old }
{
    let mut at = 0;
    for half in 1..=marked.word.len() / 2 {
        let marks = marked.of_half(half);
        at += write_starts(half, marks, &mut out[at..]);
    }
}
