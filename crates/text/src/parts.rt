// The parts of a text between separator bytes.
ghost use Rattle.std.specs.Prelude.{◌≡◌, ℕ, ◌<◌, ◌≤◌, List, [], ◌∷◌, length, MatchOption, ◌==◌, ◌≢◌, slice_index};
ghost use Rattle.text.specs.Parts.{parts, PartedOnly, tab};
ghost use Rattle.text.specs.Left.{parts_left};
ghost use Rattle.std.specs.Iterator.{at_most};
ghost use Rattle.std.specs.Str.Iter.{LacksByte};

// An iterator over the parts; a text without a separator is one part, the empty text too.
#[derive(Clone, Copy)]
pub struct Parts<'a> {
    // What follows the separators passed so far, none once the last part was given.
    rest: Option<&'a [u8]>,
    separator: u8,
}

impl<'a> Parts<'a> {
    pub(crate) fn new(text: &'a [u8], separator: u8) -> Self
        ensures parts { parts_left result ≡ parts separator text.now }
        ensures law { PartedOnly separator text.now (parts_left result) }
    {
        Parts {
            rest: Some(text),
            separator,
        }
    }

    // Whether the last part was given.
    pub(crate) fn is_done(&self) -> bool
        ensures { result ≡ (length (parts_left self.now) == 0) }
    {
        self.rest.is_none()
    }
}

impl<'a> Iterator for Parts<'a> {
    type Item = &'a [u8];

    ghost next_gives = { λ s r t. MatchOption r ((parts_left s ≡ []) × (parts_left t ≡ [])) (λ p. parts_left s ≡ p.now ∷ parts_left t) };

    ghost remaining = { λ s. at_most (length (parts_left s)) };

    fn next(&mut self) -> Option<&'a [u8]> {
        let rest = self.rest?;
        let Some(at) = place_of(self.separator, rest) else {
            self.rest = None;
            return Some(rest);
        };
        self.rest = Some(&rest[at + 1..]);
        Some(&rest[..at])
    }
}

// The fields of a line: its parts between tabs.
pub fn fields<'a>(line: &'a [u8]) -> Parts<'a>
    ensures parts { parts_left result ≡ parts tab line.now }
    ensures law { PartedOnly tab line.now (parts_left result) }
{
    Parts::new(line, b'\t')
}

// The place of the first such byte, if there is one.
fn place_of(byte: u8, text: &[u8]) -> Option<usize>
    ensures { MatchOption result (LacksByte byte text.now) (λ i. (i < length text.now) × (slice_index text.now i ≡ byte) × ((k : ℕ) → k < i → slice_index text.now k ≢ byte)) }
{
    text.iter().position(|b| *b == byte)
}
