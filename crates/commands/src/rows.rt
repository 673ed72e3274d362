// The table of the grammar: which row a word names, and the letters of a row.
ghost use Rattle.std.specs.Prelude.{◌≡◌, ◌+◌, ◌≤◌, ◌<◌, MatchOption, get_or};
ghost use Rattle.language.specs.Grammar.{rows, row_length, column, is_name, find_row, rest_letter};
ghost use Rattle.commands.specs.Standing.{Letters};

use scanning::word_end;

// How many rows there are; the bytes of a row, of its name, and of the letters of its numbers.
const ROWS: usize = 35;

const ROW_LENGTH: usize = 21;

const NAME_LENGTH: usize = 12;

const MOST_NUMBERS: usize = 7;

// A name, a letter for each number behind it, and at the end a letter for what may follow.
static GRAMMAR: [u8; ROWS * ROW_LENGTH] = *b"\
table       b      .
begin       b      p
step        b      b
cancel      b      .
tick               k
outcome     b      .
report             .
show               .
say                a
store       sw     .
records     r      .
size        b      .
help               .
set         t      f
search      b      .
spark       b      p
rule        bbbby  .
rules              .
count       n      .
places      l      .
sent        bb     w
received    bb     w
compare            .
flags       11111  .
phase       b      .
left        n      .
owner       b      .
outcome     cbb    .
copied      b      .
waking      b      .
queue              q
queuelength b      .
operation          p
target      b      .
present     1      .
";

// A row of the table, by its place.
#[derive(Clone, Copy)]
pub struct Row {
    pub place: usize,
    ghost is_row: { place < rows },
}

// The byte of a row in a column.
fn byte_of_row(row: Row, i: usize) -> u8
    requires { i < row_length }
    ensures { result ≡ column row.place i }
{
    GRAMMAR[ROW_LENGTH * row.place + i]
}

// The byte of a word at a place, or a space past its end.
fn byte_or_space(word: &[u8], i: usize) -> u8
    ensures { result ≡ get_or word.now i 32 }
{
    word.get(i).copied().unwrap_or(b' ')
}

// Whether a word is the name of a row.
fn is_name(row: Row, word: &[u8]) -> bool
    ensures { result ≡ is_name row.place word.now }
{
    for i in 0..NAME_LENGTH {
        if byte_or_space(word, i) != byte_of_row(row, i) {
            return false;
        }
    }
    true
}

// The first of some rows that a word names, where it names one.
pub fn find_row(word: &[u8], first: usize, count: usize) -> Option<Row>
    requires { first + count ≤ rows }
    ensures { MatchOption result (find_row count first word.now ≡ first + count) (λ row. (find_row count first word.now ≡ row.place) × (row.place < first + count)) }
{
    for place in first..first + count {
        let row = Row { place };
        if is_name(row, word) {
            return Some(row);
        }
    }
    None
}

// The letters of a row's numbers.
pub fn letters_of(row: Row) -> &'static [u8]
    ensures { Letters row.place result.now }
{
    let start = ROW_LENGTH * row.place + NAME_LENGTH;
    let field = &GRAMMAR[start..start + MOST_NUMBERS];
    &field[..word_end(field, 0)]
}

// The letter of what may follow the numbers of a row.
pub fn rest_letter(row: Row) -> u8
    ensures { result ≡ rest_letter row.place }
{
    byte_of_row(row, NAME_LENGTH + MOST_NUMBERS)
}
