// Records as bytes: numbers of eight bytes each, the lowest byte first.
ghost use Rattle.std.specs.Prelude.{◌≡◌};
ghost use Rattle.port.specs.Bytes.{call_from, all_bytes, words_of};

use crate::records::{AnswerRecord, CallRecord};
use byteorder::{ByteOrder, LittleEndian};

// A call's four numbers.
impl From<&[u8; 32]> for CallRecord {
    ghost from_gives = { λ bytes r. r ≡ call_from bytes.now };

    fn from(bytes: &[u8; 32]) -> CallRecord {
        let mut words = [0; 4];
        LittleEndian::read_u64_into(bytes, &mut words);
        let [kind, a, b, c] = words;
        CallRecord { kind, a, b, c }
    }
}

// An answer's nine numbers; a negative lead is told by its two's complement.
impl From<AnswerRecord> for [u64; 9] {
    ghost from_gives = { λ said r. r ≡ words_of said };

    fn from(said: AnswerRecord) -> [u64; 9] {
        let [a, b, c, d, e, f, g] = said.values;
        [said.kind, said.lead.cast_unsigned(), a, b, c, d, e, f, g]
    }
}

// The bytes of an answer.
impl From<AnswerRecord> for [u8; 72] {
    ghost from_gives = { λ said r. r ≡ all_bytes (words_of said) };

    fn from(said: AnswerRecord) -> [u8; 72] {
        let words: [u64; 9] = said.into();
        let mut bytes = [0; 72];
        LittleEndian::write_u64_into(&words, &mut bytes);
        bytes
    }
}
