// What the programs on files share: the files that the command line names, and what came of taking one in, printed. A write that fails is not told of.
#![tactic(auto)]

ghost use Rattle.std.specs.Prelude.{◌≡◌, true, ◌≤◌, length, IfSome};
ghost use Rattle.std.specs.Io.{ReadsAtMost};
ghost use Rattle.block.specs.Block.{current, good};

use block::get_header;
use range::table_span;
use regions::bytes::get_region;
use regions::{Kind, Region};
use std::env::FillError;
use std::fmt::Display;
use std::fs::File;
use std::io::{Error, ErrorKind, Read};
use std::rt::Env;
use std::{fmt, fs, io};

// Room for a file's name, as long as the system takes one.
const PATH: usize = 4096;

// A program, and the name by which it speaks of itself, which need not be text.
#[derive(Clone, Copy)]
pub struct Program<'a> {
    pub rt: &'a HostRuntime,
    pub name: &'a [u8],
}

// A record as its line has it: base, size, flags, node, in decimal, one space between.
#[derive(Clone, Copy)]
struct Fields(Region);

impl Display for Fields {
    fn fmt<W: fmt::Write>(&self, f: &mut fmt::Formatter<W>) -> fmt::Result {
        let Region { base, size, tag } = self.0;
        write!(f, "{} {} {} {}", base.0, size.0, tag.flags, tag.node)
    }
}

// The records of a table of a good block.
fn say_table(rt: &impl Print, block: &[u8], kind: Kind)
    requires { good current block.now ≡ true }
{
    let span = table_span(kind);
    let table = &block[span.start..span.end];
    let count = get_header(block).tally(kind).count as usize;
    for i in 0..count {
        let _ = println!(rt; "{}", Fields(get_region(table, 24 * i)));
    }
}

// The number answered and every record of both tables, a line each.
pub fn say_answer(rt: &impl Print, number: u32, block: &[u8])
    requires { good current block.now ≡ true }
{
    let _ = println!(rt; "{number}");
    say_table(rt, block, Kind::Memory);
    say_table(rt, block, Kind::Taken);
}

// Why an argument is not to be had, in the system's words.
fn why_no_argument(error: FillError) -> Error {
    match error {
        FillError::NotPresent => Error::new(ErrorKind::InvalidInput, "Invalid argument"),
        FillError::TooLong => Error::new(ErrorKind::InvalidFilename, "File name too long"),
    }
}

// Reads until the room is full or the file ends, and answers how many bytes of it are read.
// By hand, into lent room: the library's `read_to_end` takes the heap, which may have no memory left, and reads by parts.
fn read_full(file: &mut File, room: &mut [u8]) -> io::Result<usize>
    ensures { ReadsAtMost result room.new }
{
    let mut done = 0;
    while done < room.len() {
        let n = file.read(&mut room[done..])?;
        if n == 0 {
            return Ok(done);
        }
        done += n;
    }
    Ok(done)
}

impl Program<'_> {
    // Begins a line on standard error about a file, whose name need not be text.
    fn say_path(self, path: &[u8]) {
        let _ = self.rt.stderr().write_all(self.name);
        let _ = eprint!(self.rt; ": ");
        let _ = self.rt.stderr().write_all(path);
        let _ = eprint!(self.rt; ": ");
    }

    // Why a call on a file failed: the system's words, without the number that std puts behind them.
    fn say_failure(self, path: &[u8], error: Error) {
        self.say_path(path);
        match error.to_string(self.rt.alloc()) {
            Ok(words) => {
                let words = words.as_str();
                let reason = words
                    .rsplit_once(" (os error ")
                    .map_or(words, |(reason, _)| reason);
                let _ = eprintln!(self.rt; "{reason}");
            }
            Err(_) => {
                let _ = eprintln!(self.rt; "{error}");
            }
        }
    }

    // Begins a line on standard error about the file that argument k names.
    pub fn say_about(self, k: usize) {
        let mut path = [0u8; PATH];
        let n = self.rt.arg(k, &mut path).unwrap_or(0);
        self.say_path(&path[..n]);
    }

    // Reads a file, as much of it as there is room for, and answers how many bytes. std takes names that are UTF-8 alone. One more read tells whether a file
    // that fills the room can be read on.
    fn read_file(self, path: &[u8], room: &mut [u8]) -> io::Result<usize>
        ensures { ReadsAtMost result room.new }
    {
        let Ok(name) = str::from_utf8(path) else {
            return Err(Error::new(
                ErrorKind::InvalidFilename,
                "Invalid or incomplete multibyte or wide character",
            ));
        };
        let mut file = fs::open(self.rt, name)?;
        let n = read_full(&mut file, room)?;
        file.read(&mut [0u8; 1])?;
        Ok(n)
    }

    // Reads the file that argument k names, as much of it as there is room for, and answers how many bytes; says on standard error what went wrong.
    pub fn read_named(self, k: usize, room: &mut [u8]) -> Option<usize>
        ensures { IfSome result (λ n. n ≤ length room.new) }
    {
        let mut path = [0u8; PATH];
        let n = match self.rt.arg(k, &mut path).map_err(why_no_argument) {
            Ok(n) => n,
            Err(error) => {
                self.say_failure(b"the file's name", error);
                return None;
            }
        };
        match self.read_file(&path[..n], room) {
            Ok(count) => Some(count),
            Err(error) => {
                self.say_failure(&path[..n], error);
                None
            }
        }
    }

    // Whether there is an argument k, however long.
    fn has_argument(self, k: usize) -> bool {
        !matches!(self.rt.arg(k, &mut [0u8; 1]), Err(FillError::NotPresent))
    }

    // Whether there are as many arguments as files are to be named; says on standard error how to use the program if not.
    pub fn names_files(self, files: &[u8], count: usize) -> bool {
        if self.has_argument(count) && !self.has_argument(count.saturating_add(1)) {
            return true;
        }
        let _ = eprint!(self.rt; "usage: ");
        let _ = self.rt.stderr().write_all(self.name);
        let _ = eprint!(self.rt; " ");
        let _ = self.rt.stderr().write_all(files);
        let _ = eprintln!(self.rt; "");
        false
    }

    // Reads the file that the one argument names, likewise.
    pub fn read_argument(self, room: &mut [u8]) -> Option<usize>
        ensures { IfSome result (λ n. n ≤ length room.new) }
    {
        if !self.names_files(b"FILE", 1) {
            return None;
        }
        self.read_named(1, room)
    }
}
