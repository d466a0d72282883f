// The words that a line may begin with.
ghost use Rattle.std.specs.Prelude.{◌≡◌};
ghost use Rattle.std.specs.Option.{ok_or};
ghost use Rattle.history_text.specs.declared.faults.Cause.TheVariants.{Unknown};
ghost use Rattle.history_text.specs.Vocabulary.{Spells, word, arity};

use crate::faults::Cause;

#[derive(Clone, Copy, PartialEq, Eq, Debug)]
pub enum Word {
    Link,
    Sess,
    Open,
    Arr,
    At,
    Figs,
    Tots,
    Take,
    Filed,
    Back,
}

// The words are chosen by char literals as cases on the field's bytes: the project asks for this form.
#[tactic(auto, using(std::proofs::lemmas::Slice::Eq::text_from_reads))]
fn spell(bytes: &[u8]) -> Option<Word>
    ensures { Spells bytes.now result }
{
    match bytes {
        [a, b] => match (char::from(*a), char::from(*b)) {
            ('a', 't') => Some(Word::At),
            _ => None,
        },
        [a, b, c] => match (char::from(*a), char::from(*b), char::from(*c)) {
            ('a', 'r', 'r') => Some(Word::Arr),
            _ => None,
        },
        [a, b, c, d] => match (
            char::from(*a),
            char::from(*b),
            char::from(*c),
            char::from(*d),
        ) {
            ('l', 'i', 'n', 'k') => Some(Word::Link),
            ('s', 'e', 's', 's') => Some(Word::Sess),
            ('o', 'p', 'e', 'n') => Some(Word::Open),
            ('f', 'i', 'g', 's') => Some(Word::Figs),
            ('t', 'o', 't', 's') => Some(Word::Tots),
            ('t', 'a', 'k', 'e') => Some(Word::Take),
            ('b', 'a', 'c', 'k') => Some(Word::Back),
            _ => None,
        },
        [a, b, c, d, e] => match (
            char::from(*a),
            char::from(*b),
            char::from(*c),
            char::from(*d),
            char::from(*e),
        ) {
            ('f', 'i', 'l', 'e', 'd') => Some(Word::Filed),
            _ => None,
        },
        _ => None,
    }
}

// The word that the bytes spell.
impl<'a> TryFrom<&'a [u8]> for Word {
    type Error = Cause;

    ghost try_from_gives = { λ bytes spelled. spelled ≡ ok_or (word bytes.now) Unknown };

    fn try_from(bytes: &'a [u8]) -> Result<Word, Cause> {
        spell(bytes).ok_or(Cause::Unknown)
    }
}

impl Word {
    // How many fields come after the word.
    pub fn arity(self) -> usize
        ensures { result ≡ arity self }
    {
        match self {
            Word::Link => 4,
            Word::Arr => 3,
            Word::Sess | Word::At | Word::Figs => 1,
            Word::Open | Word::Tots | Word::Take | Word::Filed | Word::Back => 0,
        }
    }
}
