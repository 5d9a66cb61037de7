// The program: reads a word from standard input and prints its length, full periods, Abelian periods, squares and cover, or why it is
// refused.
//
// Proved: for every input, the bytes that `answer` hands back are what documents 01 and 02 say is printed for the input's word (`printed` and
// `word_in` of specs/Lines.antt), and, where reading and writing succeed and the reader's bytes are known, `run` writes them, all of them and
// nothing else, and reads no more than the first 242 bytes. No contract can say which bytes a call of the operating system reads or writes:
// that the bytes of standard input are those that are read, and that all bytes of the answer arrive, is tried by tests/cycles.
//
// Where reading or writing fails the program says so on standard error and ends with status 1.
#![tactic(auto)]

mod answer;
mod lines;

ghost use Rattle.std.specs.Prelude.{◌≡◌, ◌+◌, ◌≤◌, length, take, IfOk, IfSome, OnOk};
ghost use Rattle.std.specs.Io.KnownBytes.{Appends, Consumes};
ghost use Rattle.abelian.specs.Words.{longest};
ghost use Rattle.cycles.specs.Inputs.{bytes_read};
ghost use Rattle.cycles.specs.Lines.{word_in, printed};

use abelian::LONGEST;
use answer::{TEXT, answer};
use std::fmt;
use std::fmt::{Display, Formatter};
use std::io::{Read, Write};
use std::process::ExitCode;

// The bytes of an input that decide what is printed: a longest word and two more. If so many came, the word is too long even if the last
// of them is a final byte 10.
const DECIDING: usize = LONGEST + 2;

// Why nothing, or not all, was printed.
#[derive(Drop)]
enum Failure {
    Reading(std::io::Error),
    Writing(std::io::Error),
}

impl Display for Failure {
    fn fmt<W: fmt::Write>(&self, f: &mut Formatter<W>) -> fmt::Result {
        match self {
            Failure::Reading(e) => write!(f, "standard input: {e}"),
            Failure::Writing(e) => write!(f, "standard output: {e}"),
        }
    }
}

// Reads input into the slice until that is full or the input ends; one read may bring fewer bytes than there will be. Where the reader's
// bytes are known, the slice has the first of them, and they alone are read. The loop stays a `while`, since each read says how far it goes, and
// std's method that reads on to the end fills a `Vec`, while this program has no heap.
#[tactic(auto, using(crate::proofs::Reading::read_more))]
fn read_input<R: Read>(reader: &mut R, input: &mut [u8]) -> std::io::Result<usize>
    ensures within { bytes_read result ≤ length input.new }
    ensures first { IfOk result (λ n. IfSome (R.remaining reader.old) (λ xs. take n input.new ≡ take (length input.new) xs)) }
    ensures consumed { IfOk result (λ n. Consumes (R.remaining reader.old) (R.remaining reader.new) (take n input.new)) }
{
    let mut at = 0;
    while at < input.len() {
        let more = reader.read(&mut input[at..])?;
        if more == 0 {
            return Ok(at);
        }
        at += more;
    }
    Ok(at)
}

// Prints what is printed for an input.
fn print_answer<W: Write>(input: &[u8], writer: &mut W) -> std::io::Result<()>
    ensures { OnOk result (Appends (W.contents writer.old) (W.contents writer.new) (printed (word_in input.now))) }
{
    let mut text = [0u8; TEXT];
    let n = answer(input, &mut text);
    writer.write_all(&text[..n])
}

// Reads an input and prints what is printed for it. No more of it is read than the bytes that decide.
fn run<R: Read, W: Write>(reader: &mut R, writer: &mut W) -> Result<(), Failure>
    ensures written { OnOk result (IfSome (R.remaining reader.old)
        (λ xs. Appends (W.contents writer.old) (W.contents writer.new) (printed (word_in xs)))) }
    ensures consumed { OnOk result (IfSome (R.remaining reader.old)
        (λ xs. Consumes (R.remaining reader.old) (R.remaining reader.new) (take (longest + 2) xs))) }
{
    let mut input = [0u8; DECIDING];
    let n = read_input(reader, &mut input).map_err(Failure::Reading)?;
    print_answer(&input[..n], writer).map_err(Failure::Writing)
}

fn main(rt: HostRuntime) -> ExitCode {
    match run(&mut rt.stdin(), &mut rt.stdout()) {
        Ok(()) => ExitCode::SUCCESS,
        Err(failure) => {
            // Where standard error takes nothing either, the status still tells.
            let _ = eprintln!(rt; "cycles: {failure}");
            ExitCode::FAILURE
        }
    }
}
