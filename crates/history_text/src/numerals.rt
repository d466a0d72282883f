// Numbers are read in decimal.
ghost use Rattle.std.specs.Prelude.{◌≡◌, ◌<◌, length};
ghost use Rattle.history_text.specs.Numerals.{amount, numeral};

// How many digits a number below 2 ^ 64 has at most.
const MOST_DIGITS: usize = 20;

// The number that the digits write, if each byte is one and the number fits. Where the first is none, no other is looked at; the library, which goes
// over all of them, would also take a plus there.
fn amount_of(digits: &[u8]) -> Option<u64>
    ensures { 0 < length digits.now → result ≡ amount 0 digits.now }
{
    if !digits.first()?.is_ascii_digit() {
        return None;
    }
    str::from_utf8(digits).ok()?.parse::<u64>().ok()
}

// The number that the bytes write, with no leading zero. More than MOST_DIGITS bytes write none, and are not looked at.
#[tactic(auto, unfolding(crate::specs::Numerals::numeral))]
pub fn number_of(bytes: &[u8]) -> Option<u64>
    ensures { result ≡ numeral bytes.now }
{
    if bytes.len() > MOST_DIGITS {
        return None;
    }
    match bytes {
        [] | [b'0', _, ..] => None,
        digits => amount_of(digits),
    }
}
