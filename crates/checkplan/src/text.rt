// A plan as text: a line for each of its lines, seven decimal numbers with one space between, in the request's order, and a line end, which the last one may
// lack. A number is one digit or more, leading zeros among them, and nothing else: no sign, no other space, no carriage return. It may have at most 20
// digits and 64 bits, that of a node and of a wish 32 bits.
ghost use Rattle.std.specs.Prelude.{◌≤◌, length, IfOk};

use address::{Address, Size};
use fits::Query;
use plan::Line;
use std::fmt;
use std::fmt::Display;
use std::str::{FromStr, Split};

// The most lines that are read: one more than a plan may have.
pub const LINES: usize = 65;

// Room for as many lines as are read: a right one has seven numbers of at most 20 digits, six spaces and a line end. Where a longer file is cut inside one of
// them, what is left of that line is too long to be right.
pub const TEXT: usize = 9555;

// The numbers of a line, and the most digits that one may have.
const NUMBERS: usize = 7;

const DIGITS: usize = 20;

// What is wrong with a line: it has not the right form, or it has and one of its numbers does not fit.
#[derive(Clone, Copy)]
pub enum Wrong {
    NotSeven,
    TooLarge,
}

impl Display for Wrong {
    fn fmt<W: fmt::Write>(&self, f: &mut fmt::Formatter<W>) -> fmt::Result {
        match self {
            Wrong::NotSeven => write!(f, "not seven decimal numbers"),
            Wrong::TooLarge => write!(f, "a number is too large or too long"),
        }
    }
}

// Why a text is not read as a plan: its first wrong line, counted from 1.
#[derive(Clone, Copy)]
pub struct Fault {
    pub line: usize,
    pub wrong: Wrong,
}

impl Display for Fault {
    fn fmt<W: fmt::Write>(&self, f: &mut fmt::Formatter<W>) -> fmt::Result {
        let Fault { line, wrong } = *self;
        write!(f, "line {line}: {wrong}")
    }
}

// Whether a word is a decimal number, however large.
fn is_number(word: &str) -> bool {
    !word.is_empty() && word.bytes().all(|b| b.is_ascii_digit())
}

// The next number of a line that has the right form.
fn next_number<T: FromStr>(words: &mut Split<'_, char>) -> Result<T, Wrong>
where
    T::Err: Drop,
{
    let word = words.next().ok_or(Wrong::NotSeven)?;
    if DIGITS < word.len() {
        return Err(Wrong::TooLarge);
    }
    word.parse().map_err(|_| Wrong::TooLarge)
}

// Reads a line, without its line end.
fn read_line(bytes: &[u8]) -> Result<Line, Wrong> {
    let Ok(line) = str::from_utf8(bytes) else {
        return Err(Wrong::NotSeven);
    };
    if line.split(' ').count() != NUMBERS || !line.split(' ').all(is_number) {
        return Err(Wrong::NotSeven);
    }
    let mut words = line.split(' ');
    let query = Query {
        size: Size(next_number(&mut words)?),
        align: Size(next_number(&mut words)?),
        start: Address(next_number(&mut words)?),
        end: Address(next_number(&mut words)?),
        node: next_number(&mut words)?,
        wish: next_number(&mut words)?,
    };
    let at = Address(next_number(&mut words)?);
    Ok(Line { query, at })
}

// A line of zeros, where none is read yet.
pub fn no_line() -> Line {
    let query = Query {
        size: Size(0),
        align: Size(0),
        start: Address(0),
        end: Address(0),
        node: 0,
        wish: 0,
    };
    Line {
        query,
        at: Address(0),
    }
}

// Reads the lines of a text up to the first wrong one, at most 65, into lent room: an index by hand, since there may be no memory on the heap.
pub fn read_lines<'l>(text: &[u8], lines: &'l mut [Line; LINES]) -> Result<&'l [Line], Fault>
    ensures { IfOk result (λ lines. length lines.now ≤ 65) }
{
    let mut count = 0;
    for line in text.split_inclusive(|b| *b == b'\n').take(LINES) {
        let line = line.strip_suffix(b"\n").unwrap_or(line);
        match read_line(line) {
            Ok(line) => lines[count] = line,
            Err(wrong) => {
                return Err(Fault {
                    line: count + 1,
                    wrong,
                });
            }
        }
        count += 1;
    }
    Ok(&lines[..count])
}
