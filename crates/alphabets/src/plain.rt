// Bytes that are their own letters.
ghost use Rattle.std.specs.Prelude.{◌≡◌, ◌≤◌};
ghost use Rattle.alphabets.specs.Plain.{letter_count, plain_letter};
ghost use Rattle.std.proofs.Common.{rules, arith};

use crate::Alphabet;

const MOST: u8 = 16;

// A byte below the number of letters is its own letter, and any other byte is the last one.
#[derive(Clone, Copy)]
pub struct PlainLetters {
    count: u8,
    ghost some: { 1 ≤ count },
    ghost few: { count ≤ 16 },
}

impl PlainLetters {
    // That many letters; 1 where the number is less, and 16 where it is more.
    pub fn new(count: u8) -> PlainLetters
        ensures { result.count ≡ letter_count count }
    {
        PlainLetters {
            count: count.clamp(1, MOST),
        }
    }
}

impl Alphabet for PlainLetters {
    type Mark = u8;

    ghost letters = { λ s. s.count };

    ghost letter = { λ s b. plain_letter s.count b };

    ghost some = { first_of (Prim.search rules, Prim.grind (arith, Self.row.coded.inj)) };

    ghost few = { first_of (Prim.search rules, Prim.grind (arith, Self.row.coded.inj)) };

    ghost below = { first_of (Prim.search rules, Prim.grind (arith, Self.row.coded.inj)) };

    fn letters(&self) -> u8 {
        self.count
    }

    fn letter(&self, mark: &u8) -> u8 {
        (*mark).min(self.count - 1)
    }
}
