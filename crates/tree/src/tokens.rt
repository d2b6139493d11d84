// The tokens of a structure block. `names` is how many places of the strings block begin a name that ends inside it.
ghost use Rattle.std.specs.Prelude.{◌≡◌, ◌==◌, ◌+◌, ◌≤◌, position, length, drop};
ghost use Rattle.tree.specs.Tokens.{begin_of, property_of, plain_of, token};
ghost use Rattle.tree.specs.Steps.{shape, StepOf, Padded};

use super::reader::Structure;
use super::words::word_at;

// A token by its numbers: the length of a node's name; the place of a property's name and the length of its value.
#[derive(Clone, Copy)]
pub enum Token {
    Begin(usize),
    End,
    Property(usize, usize),
    Nop,
    Stop,
    Broken,
}

// A token, and where the next one begins.
#[derive(Clone, Copy)]
pub struct Step {
    pub token: Token,
    pub next: usize,
}

// How many bytes stand before the first zero byte, where there is one.
fn name_length(s: &[u8]) -> Option<usize>
    ensures { result ≡ position (λ b. b == 0) s.now }
{
    s.iter().position(|b| *b == 0)
}

// The place behind n bytes from `at` and their padding, or the end.
fn behind(len: usize, at: usize, n: usize) -> usize
    requires { at + n ≤ len }
    ensures { Padded len at n result }
{
    let over = (4 - n % 4) % 4;
    let end = at + n;
    if len - end < over {
        return len;
    }
    end + over
}

// A token that is its number alone.
#[tactic(auto, unfolding(crate::specs::Tokens::plain_of))]
fn plain(w: u32) -> Token
    ensures { result ≡ shape (plain_of w) }
{
    match w {
        2 => Token::End,
        4 => Token::Nop,
        9 => Token::Stop,
        _ => Token::Broken,
    }
}

impl Step {
    // No whole token.
    fn broken(next: usize) -> Step
        ensures { result ≡ record { token = Token.Broken; next = next } }
    {
        Step {
            token: Token::Broken,
            next,
        }
    }
}

impl<'a> Structure<'a> {
    // A node's begin: `at` is where the token begins.
    fn begin_at(&self, at: usize) -> Step
        requires { at + 4 ≤ length self.now.bytes.now }
        ensures { StepOf (begin_of (drop 4 (drop at self.now.bytes.now))) self.now.bytes.now at result }
    {
        let from = at + 4;
        let Some(n) = name_length(&self.bytes[from..]) else {
            return Step::broken(from);
        };
        Step {
            token: Token::Begin(n),
            next: behind(self.bytes.len(), from, n + 1),
        }
    }

    // A property.
    fn property_at(&self, at: usize) -> Step
        requires { at + 4 ≤ length self.now.bytes.now }
        ensures { StepOf (property_of self.now.names (drop 4 (drop at self.now.bytes.now))) self.now.bytes.now at result }
    {
        let from = at + 4;
        let len = self.bytes.len();
        if len - from < 8 {
            return Step::broken(from);
        }
        let n = word_at(self.bytes, from) as usize;
        let name = word_at(self.bytes, from + 4) as usize;
        if len - from - 8 < n || self.names <= name {
            return Step::broken(from);
        }
        Step {
            token: Token::Property(name, n),
            next: behind(len, from + 8, n),
        }
    }

    // The token at `at`.
    pub fn token_at(&self, at: usize) -> Step
        requires { at ≤ length self.now.bytes.now }
        ensures { StepOf (token self.now.names (drop at self.now.bytes.now)) self.now.bytes.now at result }
    {
        let len = self.bytes.len();
        if len - at < 4 {
            return Step::broken(len);
        }
        match word_at(self.bytes, at) {
            1 => self.begin_at(at),
            3 => self.property_at(at),
            w => Step {
                token: plain(w),
                next: at + 4,
            },
        }
    }
}
