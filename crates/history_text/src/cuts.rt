// A text is cut at a byte. The parts borrow the text.
ghost use Rattle.std.specs.Prelude.{◌≡◌, ◌+◌, ◌≤◌, ◌==◌, length, position};
ghost use Rattle.std.specs.Iterator.{YieldsFirstRef, item_count};
ghost use Rattle.history_text.specs.Cuts.{cut, spread};
ghost use Rattle.history_text.specs.Parts.{left};

// The parts of a text that are still to come, one after another. None is left after the last.
//
// The library's `split` gives the same parts, but its iterator holds a closure, and a loop over such a one gets no statement that antt takes where
// the function around it has a type parameter and the loop an invariant, as in `print_history`.
#[derive(Clone, Copy, Debug)]
pub struct Parts<'a> {
    rest: Option<&'a [u8]>,
    at: u8,
}

// Where the byte stands first.
fn first_place(text: &[u8], at: u8) -> Option<usize>
    ensures { result ≡ position (λ x. x == at) text.now }
{
    text.iter().position(|b| *b == at)
}

impl<'a> Parts<'a> {
    #[tactic(auto, using(crate::proofs::Parting::spread_cut, crate::proofs::Parting::length_cut))]
    pub fn of(text: &'a [u8], at: u8) -> Parts<'a>
        ensures parts { left result ≡ cut at text.now }

        // So that places in the text, and a count of the parts, fit.
        ensures size { spread (left result) ≡ length text.now + 1 }
        ensures few { length (left result) ≤ length text.now + 1 }
    {
        Parts {
            rest: Some(text),
            at,
        }
    }
}

impl<'a> Iterator for Parts<'a> {
    type Item = &'a [u8];

    ghost next_gives = { YieldsFirstRef left };

    ghost remaining = { item_count left };

    fn next(&mut self) -> Option<&'a [u8]> {
        let text = self.rest?;
        match first_place(text, self.at) {
            Some(end) => {
                self.rest = Some(&text[end + 1..]);
                Some(&text[..end])
            }
            None => {
                self.rest = None;
                Some(text)
            }
        }
    }
}
