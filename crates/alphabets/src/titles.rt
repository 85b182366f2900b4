// The bytes of titles.
ghost use Rattle.std.specs.Prelude.{◌≡◌};
ghost use Rattle.alphabets.specs.Titles.{title_letter};
ghost use Rattle.std.proofs.Common.{rules};

use crate::Alphabet;
use crate::table::table;

// Digits, letters, the space, marks, opening and closing brackets, bytes past ASCII, and all others.
#[derive(Clone, Copy)]
pub struct TitleBytes;

impl Alphabet for TitleBytes {
    type Mark = u8;

    ghost letters = { λ _. 8 };

    ghost letter = { λ _ b. title_letter b };

    ghost some = { Prim.search rules };

    ghost few = { Prim.search rules };

    ghost below = { Prim.search rules };

    fn letters(&self) -> u8 {
        8
    }

    fn letter(&self, mark: &u8) -> u8 {
        letter_of(*mark)
    }
}

fn letter_of(byte: u8) -> u8
    ensures { result ≡ title_letter byte }
{
    table()[byte as usize]
}
