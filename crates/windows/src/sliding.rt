// The window that slides over a record. Its letters are counted once, and then one letter joins and one leaves at each step. For each letter there is an entry: its count
// in the window less that in the pattern, modulo 2^8. A running number says how many entries are not 0, so in how many counts window and pattern differ, and where
// it is 0 the window is one of the pattern's.
ghost use Rattle.std.specs.Prelude.{◌≡◌, ◌+◌, ◌%◌, ◌^◌, ◌<◌, ◌≤◌, length, slice_index, slice_set};
ghost use Rattle.abelian.specs.Words.{alphabet_size};
ghost use Rattle.abelian.specs.Output.{window_word};
ghost use Rattle.abelian.specs.Windows.{longest_record, window_words};
ghost use Rattle.windows.specs.Excess.{excess, nonzero};
ghost use Rattle.windows.specs.Sliding.{Readable, fill_places};

use crate::Search;
use abelian::{FIRST_LETTER, Kind, LETTERS, store_word};
use words::{Word, count_letters};

// What is added to an entry, modulo 2^8, where its letter joins the window or leaves it: numbers and no enum, which would be turned back into them.
const JOINS: u8 = 1;

const LEAVES: u8 = 255;

// The first vector's counts, each less the second's, modulo 2^8. Counts of 8 bits are equal exactly where this is 0. It and `words::parts::difference` stay two functions: a count may
// be below the other's here, and none may there, so that one function for both would promise a number modulo 2^8 to callers that need the difference itself.
fn subtract(counts: [u8; LETTERS], wanted: [u8; LETTERS]) -> [u8; LETTERS]
    ensures { result ≡ excess counts wanted }
{
    let mut entries = counts;
    for j in 0..LETTERS {
        entries[j] = counts[j].wrapping_sub(wanted[j]);
    }
    entries
}

// How many entries are not 0. A loop that adds 0 or 1 for each becomes a few vector instructions; `filter` and `count` branch at each entry, and a call on a short record took up to twice as long.
fn count_nonzero(entries: [u8; LETTERS]) -> usize
    ensures { result ≡ nonzero entries }
{
    let mut found = 0;
    for entry in &entries {
        found += (*entry != 0) as usize;
    }
    found
}

// Adds to one entry, modulo 2^8, and returns how many entries are not 0 then, by how many were not before. The number is handed on beside the entries: a struct of both was tried,
// in which it lies in memory, as they do, and a call took up to twice as long.
fn change(entries: &mut [u8; LETTERS], differing: usize, place: usize, by: u8) -> usize
    requires entries_len { (length entries.old ≡ alphabet_size) × (place < alphabet_size) }
    requires differing_value { differing ≡ nonzero entries.old }
    ensures value { result ≡ nonzero entries.new }
    ensures entries_after { entries.new ≡ slice_set entries.old place ((slice_index entries.old place + by) % 2 ^ 8) }
{
    let before = entries[place];
    let after = before.wrapping_add(by);
    entries[place] = after;
    differing + (before == 0) as usize - (after == 0) as usize
}

// The output word of a window: its kind, and its start below.
#[tactic(auto, unfolding(abelian::specs::Windows::longest_record, abelian::specs::Output::window_word))]
fn window_word(start: usize) -> u32
    requires { start ≤ longest_record }
    ensures { result ≡ window_word start }
{
    Kind::Window.word() + start as u32
}

// Slides a window over the record, writes the words of the starts that are the pattern's, as many as there are places for, to the first places of the slice, and
// returns how many there are in all. Between two steps the entries are those of the window but for its last letter. A window's place is counted on where the slice has no more,
// so that it is no part of the slice.
pub(crate) fn slide(search: &Search, out: &mut [u32]) -> usize
    ensures readable { Readable search.now.pattern search.now.events }
    ensures value { result ≡ length (window_words search.now.pattern search.now.events) }
    ensures out_after { out.new ≡ fill_places (window_words search.now.pattern search.now.events) out.old }
{
    let events = search.events;
    let rest = search.pattern.len() - 1;
    if events.len() < rest {
        return 0;
    }
    let wanted = count_letters(&search.pattern);
    let first = count_letters(&Word::new(&events[..rest]));
    let mut entries = subtract(first, wanted);
    let mut differing = count_nonzero(entries);
    let mut found = 0;
    for at in 0..events.len() - rest {
        let joins = (events[at + rest] as usize) - (FIRST_LETTER as usize);
        differing = change(&mut entries, differing, joins, JOINS);
        if differing == 0 {
            store_word(out, found, window_word(at + 1));
            found += 1;
        }
        let leaves = (events[at] as usize) - (FIRST_LETTER as usize);
        differing = change(&mut entries, differing, leaves, LEAVES);
    }
    found
}
