// The test program of document 01's marked words, edges and refusals, and of document 02's requests. It reads calls from standard input, one to
// a line, and prints each line with what the call answered. The file `stdin` has the calls, and `stdout` what the two documents say of them.
//
// A call's name stands in the first 8 bytes, at their right end, so that its last letter, by which it is known, is the eighth. Behind it come
// a space, two bytes for numbers, a colon, and a word, a pattern and a record, two numbers, or the bytes of a log:
//
//        plain 40:abba      the plain lister on `abba`, with a slice of 40 places; and so `skipping`, `full`, `scaled`, `squares`
//      runs of 40:abba      the Abelian runs, which are known by f, since s stands for squares
//       report 40:abba      the report, whose words are printed as the numbers that they are
//       window 40:ab@abba   the windows of the pattern `ab` in the record `abba`; the first `@` ends the pattern, and without one the record is
//                           empty. For any bytes x and y the record `*xy` is 65,535 times x and then y, and `#xy` is 65,536 times x and then y
//      free sq 40:2,03      the square-free words over the first 2 letters of length 3, which are known by q; a `*` for the first number and `**` for
//                           the second are the largest number that there is
//        plain ??:abba      the plain lister's count on `abba`; and so for the others above
//        cover 00:abba      the search for a cover
//        judge 04:abba      the judge on the pair of head 0 and period 4; a `*` for one of them is the largest number that there is
//       replay 40:abb-      the replay of a log of calls
//        track 40:abb-      a call of the tracker for each byte, `=` for its count, and then its list; the tracker is printed after each
//
// Any other line is a heading.
#![tactic(auto)]

mod answers;
mod calls;
mod text;
mod tracked;

use calls::run_call;
use std::io;
use std::io::{BufWriter, Read, Write};

// How many bytes of the input are read at most.
const LONGEST_INPUT: usize = 65536;

// Makes the call of a line, if it is no heading.
fn run_line<W: Write>(to: &mut W, line: &[u8]) -> io::Result<()> {
    match line {
        [_, _, _, _, _, _, _, call, _, first, second, b':', body @ ..] => {
            run_call(to, *call, [*first, *second], body)
        }
        _ => Ok(()),
    }
}

// Goes through the lines of a text, and prints each with what its call answered.
fn run_lines<W: Write>(to: &mut W, text: &[u8]) -> io::Result<()> {
    for ended in text.split_inclusive(|byte| *byte == b'\n') {
        let line = ended.strip_suffix(b"\n").unwrap_or(ended);
        to.write_all(line)?;
        run_line(to, line)?;
        to.write_all(b"\n")?;
    }
    Ok(())
}

// The input's room is asked for once, with one byte more than are read, so that no read makes it grow: by growing it would take twice the memory.
fn main(rt: HostRuntime) -> io::Result<()> {
    let mut input = Vec::with_capacity(rt.alloc(), LONGEST_INPUT + 1)?;
    rt.reader()
        .take(LONGEST_INPUT as u64)
        .read_to_end(&mut input)?;
    let mut to = BufWriter::new(rt.alloc(), io::writer(&rt))?;
    run_lines(&mut to, &input)?;
    to.flush()
}
