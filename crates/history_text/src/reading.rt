// A line is read: its word, then its numbers.
ghost use Rattle.std.specs.Prelude.{◌≡◌, length, IfOk};
ghost use Rattle.history_text.specs.Cuts.{cut};
ghost use Rattle.history_text.specs.Vocabulary.{arity};
ghost use Rattle.history_text.specs.Fields.{shown, word_in, coming};
ghost use Rattle.history_text.specs.Readings.{in_turn, judged, numbers, commanded, reading};

use crate::commands::{Command, Phase};
use crate::faults::{Cause, Fault};
use crate::fields::{Fields, Token};
use crate::words::Word;
use tick_machine::call::{Making, Settlement};

// Before an accepted link only `link`; in a draft `sess` and `open`; then the rest, but `take` only without a slip in hand, and `filed` and
// `back` only with one.
fn is_in_turn(phase: Phase, word: Word) -> bool
    ensures { result ≡ in_turn phase word }
{
    match phase {
        Phase::Before => matches!(word, Word::Link),
        Phase::Draft => matches!(word, Word::Sess | Word::Open),
        Phase::Open => matches!(
            word,
            Word::Arr | Word::At | Word::Figs | Word::Tots | Word::Take
        ),
        Phase::Holding => matches!(
            word,
            Word::Arr | Word::At | Word::Figs | Word::Tots | Word::Filed | Word::Back
        ),
    }
}

// The word of a line, with the fields after it. They are counted only where the word is in turn.
fn judge(phase: Phase, token: Token, after: &Fields) -> Result<Word, Cause>
    ensures value { result ≡ judged phase (word_in (shown token.entry)) (length (coming after.now)) }
    ensures counted { IfOk result (λ w. length (coming after.now) ≡ arity w) }
{
    let Token::Word(bytes) = token else {
        return Err(Cause::Unknown);
    };
    let word = Word::try_from(bytes)?;
    if !is_in_turn(phase, word) {
        return Err(Cause::Untimely);
    }
    if after.count() != word.arity() {
        return Err(Cause::Miscounted);
    }
    Ok(word)
}

// The command of the word, with a number from each of the fields.
fn command_from(word: Word, fields: &mut Fields) -> Result<Command, Fault>
    requires { length (coming fields.old) ≡ arity word }
    ensures { result ≡ commanded word (numbers fields.old.place (coming fields.old)) }
{
    match word {
        Word::Link => Ok(Command::Make(Making {
            number: fields.next_number()?,
            largest: fields.next_number()?,
            capacity: fields.next_number()?,
            weight: fields.next_number()?,
        })),
        Word::Sess => Ok(Command::Add(fields.next_number()?)),
        Word::Open => Ok(Command::Open),
        Word::Arr => {
            let session = fields.next_number()?;
            let size = fields.next_number()?;
            let tag = fields.next_number()?;
            Ok(Command::Arrive(session, size, tag))
        }
        Word::At => Ok(Command::MoveTo(fields.next_number()?)),
        Word::Figs => Ok(Command::AskFigures(fields.next_number()?)),
        Word::Tots => Ok(Command::AskTotals),
        Word::Take => Ok(Command::Take),
        Word::Filed => Ok(Command::Settle(Settlement::File)),
        Word::Back => Ok(Command::Settle(Settlement::Return)),
    }
}

// What all fields of a line ask for.
fn read_fields(phase: Phase, fields: &mut Fields) -> Result<Command, Fault>
    requires { fields.old.place ≡ 1 }
    ensures { result ≡ reading phase (coming fields.old) }
{
    let first = fields.next().ok_or(Fault {
        cause: Cause::Unknown,
        byte: 1,
    })?;
    let word = judge(phase, first.token, fields).map_err(|cause| Fault {
        cause,
        byte: first.place,
    })?;
    command_from(word, fields)
}

// What a line that is not empty asks for.
pub fn read(phase: Phase, line: &[u8]) -> Result<Command, Fault>
    ensures { result ≡ reading phase (cut 32 line.now) }
{
    let mut fields = Fields::of(line);
    read_fields(phase, &mut fields)
}
