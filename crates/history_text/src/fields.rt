// The fields of a line, one after another. A field borrows the line and knows the byte at which it begins, counted from 1.
ghost use Rattle.std.specs.Prelude.{◌≡◌, ◌+◌, ◌≤◌, ◌^◌, length};
ghost use Rattle.history_text.specs.Cuts.{cut, spread};
ghost use Rattle.history_text.specs.Parts.{left};

use crate::cuts::Parts;
use crate::faults::{Cause, Fault};
use crate::numerals::number_of;

// What a field is: bytes that may be a word, a number, or nothing between two spaces.
#[derive(Clone, Copy, PartialEq, Eq, Debug)]
pub enum Token<'a> {
    Word(&'a [u8]),
    Number(u64),
    Empty,
}

#[derive(Clone, Copy, PartialEq, Eq, Debug)]
pub struct Field<'a> {
    pub token: Token<'a>,
    pub place: usize,
}

// The fields that are still to come, the first of which begins at `place`.
#[derive(Clone, Copy, Debug)]
pub struct Fields<'a> {
    parts: Parts<'a>,
    place: usize,
    ghost within: { place + spread (left parts) ≤ 2 ^ 63 + 1 },
}

impl<'a> From<&'a [u8]> for Token<'a> {
    ghost use Rattle.history_text.specs.Fields.{kind, shown};

    ghost from_gives = { λ bytes token. shown token ≡ kind bytes.now };

    fn from(bytes: &'a [u8]) -> Token<'a> {
        if bytes.is_empty() {
            return Token::Empty;
        }
        match number_of(bytes) {
            Some(n) => Token::Number(n),
            None => Token::Word(bytes),
        }
    }
}

impl<'a> Token<'a> {
    ghost use Rattle.history_text.specs.Fields.{shown, number_in};

    pub fn number(self) -> Option<u64>
        ensures { result ≡ number_in (shown self.entry) }
    {
        match self {
            Token::Number(n) => Some(n),
            Token::Word(_) | Token::Empty => None,
        }
    }
}

impl<'a> Iterator for Fields<'a> {
    ghost use Rattle.std.specs.Iterator.{item_count};
    ghost use Rattle.history_text.specs.Fields.{coming, TakesField};

    type Item = Field<'a>;

    ghost next_gives = { TakesField };

    ghost remaining = { item_count coming };

    fn next(&mut self) -> Option<Field<'a>> {
        let bytes = self.parts.next()?;
        let place = self.place;
        self.place += bytes.len() + 1;
        Some(Field {
            token: Token::from(bytes),
            place,
        })
    }
}

impl<'a> Fields<'a> {
    ghost use Rattle.history_text.specs.Fields.{coming, first_number, later, onward};

    // All fields of the line.
    pub fn of(line: &'a [u8]) -> Fields<'a>
        ensures fields { coming result ≡ cut 32 line.now }
        ensures place { result.place ≡ 1 }
    {
        Fields {
            parts: Parts::of(line, b' '),
            place: 1,
        }
    }

    // How many are still to come.
    #[tactic(auto, using(crate::proofs::Parting::length_spread))]
    pub fn count(&self) -> usize
        ensures { result ≡ length (coming self.now) }
    {
        self.parts.count()
    }

    // The number of the next field.
    #[tactic(auto, using(crate::proofs::KindOf::number_in_kind))]
    pub fn next_number(&mut self) -> Result<u64, Fault>
        ensures value { result ≡ first_number self.old.place (coming self.old) }
        ensures later { coming self.new ≡ later (coming self.old) }
        ensures place { self.new.place ≡ onward self.old.place (coming self.old) }
    {
        let missing = Fault {
            cause: Cause::NoNumber,
            byte: self.place,
        };
        self.next()
            .and_then(|field| field.token.number())
            .ok_or(missing)
    }
}
