// The candidates of one block length of a word.
ghost use Rattle.std.specs.Prelude.{◌≡◌, ◌*◌, ◌≤◌, length};
ghost use Rattle.abelian.specs.Words.{longest};
ghost use Rattle.squares.specs.Marks.{start_marks};

use squares::marks::Marked;
use words::CountedWord;

// The candidates at which a block and the one behind it may be equal: each start at which both lie in the word, with its mark, which is 1 where they are. A start goes by its
// number, with what it has to meet asked anew: a type for it would be made and taken apart again in each of the three functions.
#[derive(Drop)]
pub(crate) struct Row<'a> {
    pub word: &'a CountedWord<'a>,
    pub marks: &'a [u8],
    pub period: usize,
    pub ghost short: { length word.now ≤ longest },
    pub ghost positive: { 1 ≤ period },
    pub ghost marked: { marks.now ≡ start_marks word.now period },
}

impl<'a> Row<'a> {
    // Those of a block length, by its number as `of_half` takes it, among the candidates of a word.
    pub fn of(marked: &Marked<'a>, period: usize) -> Row<'a>
        requires positive { 1 ≤ period }
        requires in_bounds { 2 * period ≤ length marked.now.word.now }
        ensures word { result.word.now ≡ marked.now.word.now }
        ensures period { result.period ≡ period }
    {
        Row {
            word: marked.word,
            marks: marked.of_half(period),
            period,
        }
    }
}
