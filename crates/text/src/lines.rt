// The lines of a text.
ghost use Rattle.std.specs.Prelude.{◌≡◌, ℕ, List, [], ◌∷◌, length, MatchOption};
ghost use Rattle.text.specs.Parts.{parts as parts_at, line_feed};
ghost use Rattle.text.specs.Lines.{lines, Lined};
ghost use Rattle.text.specs.Left.{lines_left, line_of, parts_left};
ghost use Rattle.std.specs.Iterator.{at_most};

use crate::parts::Parts;

// A line without its line feed, and whether a line feed ends it.
#[derive(Clone, Copy)]
pub struct Line<'a> {
    pub text: &'a [u8],
    pub ended: bool,
}

// An iterator over the lines; only the last can lack its line feed, and then it is not empty.
#[derive(Clone, Copy)]
pub struct Lines<'a> {
    parts: Parts<'a>,
}

impl<'a> Lines<'a> {
    pub fn new(text: &'a [u8]) -> Self
        ensures lines { lines_left result ≡ lines text.now }
        ensures law { Lined text.now (lines_left result) }
    {
        Lines::of(Parts::new(text, b'\n'))
    }

    // The lines of a text, by its parts between line feeds.
    fn of(parts: Parts<'a>) -> Self
        ensures { (text : List ℕ) → parts_left parts.entry ≡ parts_at line_feed text → (lines_left result ≡ lines text) × Lined text (lines_left result) }
    {
        Lines { parts }
    }
}

impl<'a> Iterator for Lines<'a> {
    type Item = Line<'a>;

    ghost next_gives = { λ s r t. MatchOption r ((lines_left s ≡ []) × (lines_left t ≡ [])) (λ l. lines_left s ≡ line_of l ∷ lines_left t) };

    ghost remaining = { λ s. at_most (length (lines_left s)) };

    fn next(&mut self) -> Option<Line<'a>> {
        let text = self.parts.next()?;
        if !self.parts.is_done() {
            return Some(Line { text, ended: true });
        }
        if text.is_empty() {
            None
        } else {
            Some(Line { text, ended: false })
        }
    }
}
