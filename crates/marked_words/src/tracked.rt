// The tracker's calls: a list of calls, one byte each, from a fresh tracker, and each call printed on one line.
use crate::answers::{say_count, say_outcome};
use abelian::{BOARD, LONGEST, Refusal, Tracker};
use history::replay;
use std::io;
use std::io::Write;
use tracker::{add, clear, count, fresh, list, take_back};

// Begins a line with a byte.
fn begin_line<W: Write>(to: &mut W, byte: u8) -> io::Result<()> {
    to.write_all(&[b'\n', byte])
}

// Prints the bytes of a tracker that are not 0.
fn say_bytes<W: Write>(to: &mut W, tracker: &Tracker) -> io::Result<()> {
    for byte in tracker.bytes.iter().filter(|byte| **byte != 0) {
        to.write_all(&[*byte])?;
    }
    Ok(())
}

// Prints the pairs whose entries in a tracker are not 0, and these. They are in pair order, from (0, 1) on: period by period, and for each its heads
// that are in range for 240, which are below it and leave room for a block.
fn say_entries<W: Write>(to: &mut W, tracker: &Tracker) -> io::Result<()> {
    let mut entries = tracker.board.iter();
    for p in 1..=LONGEST {
        for (h, entry) in (0..p.min(LONGEST + 1 - p)).zip(&mut entries) {
            if *entry != 0 {
                write!(to, " {h},{p}={entry}")?;
            }
        }
    }
    Ok(())
}

// Prints a tracker: its length, its bytes, its entries, and its totals with a plus between them.
fn say_tracker<W: Write>(to: &mut W, tracker: &Tracker) -> io::Result<()> {
    write!(to, " {}:", tracker.len)?;
    say_bytes(to, tracker)?;
    say_entries(to, tracker)?;
    write!(to, " {}+{}", tracker.live, tracker.ended)
}

// Makes the call that a byte stands for, as in a log: a take-back, a clear, or an add of the byte. It is a match and no table of
// functions: add alone takes the byte, and the gate refuses a function that hands out function pointers. It does not go by the `Call` of `history`, which is that crate's own, so
// that what is printed tries `history::replay` by another reading of the bytes.
fn call(tracker: &mut Tracker, byte: u8) -> Result<(), Refusal> {
    match byte {
        b'-' => take_back(tracker),
        b'!' => clear(tracker),
        _ => add(tracker, byte),
    }
}

// Makes the call that a byte stands for, and prints it with what it answered and the tracker as it left it.
fn say_call<W: Write>(to: &mut W, tracker: &mut Tracker, byte: u8) -> io::Result<()> {
    let answer = call(tracker, byte);
    begin_line(to, byte)?;
    say_outcome(to, answer)?;
    say_tracker(to, tracker)
}

// Calls the tracker's count, and prints what it answered and the tracker as the call left it. It and `say_call` stay two functions, as their answers are printed by two.
fn say_counted<W: Write>(to: &mut W, tracker: &Tracker) -> io::Result<()> {
    let answer = count(tracker);
    begin_line(to, b'=')?;
    say_count(to, answer)?;
    say_tracker(to, tracker)
}

// A tracker that holds 240 times a, with totals that are not those of its board.
fn full() -> Tracker {
    Tracker {
        len: LONGEST,
        bytes: [b'a'; LONGEST],
        board: [0; BOARD],
        live: 5,
        ended: 6,
    }
}

// Makes the call of a byte on the tracker. `=` is a count, for which a log has no byte. Four bytes stand for no call, but set the tracker by hand:
// `*` makes it full, `#` sets its length to 241, `_` its first byte to 0, and `0` the entry of (0, 1), which is the first of the board, to 0. It is a match and no table of functions,
// which would be no plainer: some of its arms store, and some print.
fn run_byte<W: Write>(to: &mut W, tracker: &mut Tracker, byte: u8) -> io::Result<()> {
    match byte {
        b'*' => *tracker = full(),
        b'#' => tracker.len = LONGEST + 1,
        b'_' => tracker.bytes[0] = 0,
        b'0' => tracker.board[0] = 0,
        b'=' => say_counted(to, tracker)?,
        _ => say_call(to, tracker, byte)?,
    }
    Ok(())
}

// Makes a list of calls from a fresh tracker, calls its list, and prints the tracker as that left it on a line that begins with `?`.
pub(crate) fn tracked<W: Write>(
    to: &mut W,
    bytes: &[u8],
    out: &mut [u32],
) -> io::Result<Result<usize, Refusal>> {
    let mut tracker = fresh();
    for byte in bytes {
        run_byte(to, &mut tracker, *byte)?;
    }
    let answer = list(&tracker, out);
    begin_line(to, b'?')?;
    say_tracker(to, &tracker)?;
    Ok(answer)
}

// Replays a log of calls, and prints how many of its calls were refused.
pub(crate) fn replayed<W: Write>(
    to: &mut W,
    calls: &[u8],
    out: &mut [u32],
) -> io::Result<Result<usize, Refusal>> {
    let replayed = replay(calls, out);
    write!(to, " refusals {}", replayed.refused)?;
    Ok(replayed.wrote)
}
