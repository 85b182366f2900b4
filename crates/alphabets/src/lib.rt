// Alphabets: each gives every mark of its kind one of its letters.

#![tactic(auto)]

ghost use Rattle.std.specs.Prelude.{◌≡◌, ℕ, ◌<◌, ◌≤◌, count_by, nat_eq};

mod catalogue;
mod plain;
mod table;
mod titles;

pub use catalogue::{CatalogueFields, Field};
pub use plain::PlainLetters;
pub use titles::TitleBytes;

// An alphabet of 1 to 16 letters, numbered from 0.
pub trait Alphabet {
    type Mark;

    ghost letters: { Self → ℕ };

    ghost letter: { Self → Self.Mark → ℕ };

    fn letters(&self) -> u8
        ensures { result ≡ letters self.now };

    fn letter(&self, mark: &Self::Mark) -> u8
        ensures { result ≡ letter self.now mark.now };

    ghost some: { (s : Self) → 1 ≤ letters s };

    ghost few: { (s : Self) → letters s ≤ 16 };

    ghost below: { (s : Self) (x : Self.Mark) → letter s x < letters s };
}

#[cfg(test)]
mod tests {
    use super::*;

    // How many of the marks have the letter.
    fn count<A: Alphabet>(alphabet: &A, letter: u8, marks: &[A::Mark]) -> usize
        ensures { result ≡ count_by (λ m. nat_eq (A.Alphabet.letter alphabet.now m) letter) marks.now }
    {
        marks
            .iter()
            .filter(|mark| alphabet.letter(mark) == letter)
            .count()
    }

    #[test]
    fn title(rt: HostRuntime) {
        let title = b"Kim (1901), a tale [2. ed.]";
        assert_eq!(rt; count(&TitleBytes, 0, title), 5);
        assert_eq!(rt; count(&TitleBytes, 2, title), 5);
        assert_eq!(rt; count(&TitleBytes, 4, title), 2);
        assert_eq!(rt; TitleBytes.letter(&0xC3), 6);
    }

    #[test]
    fn fields(rt: HostRuntime) {
        let traced = Field {
            tag: 490,
            indicator: 0x31,
        };
        let untraced = Field {
            tag: 490,
            indicator: 0x30,
        };
        let entry = Field {
            tag: 830,
            indicator: 0x20,
        };
        assert_eq!(rt; CatalogueFields.letter(&traced), 2);
        assert_eq!(rt; CatalogueFields.letter(&untraced), 1);
        assert_eq!(rt;
            count(&CatalogueFields, 3, &[traced, entry, untraced, entry]),
            2
        );
    }

    #[test]
    fn plain(rt: HostRuntime) {
        assert_eq!(rt; PlainLetters::new(0).letters(), 1);
        assert_eq!(rt; PlainLetters::new(17).letters(), 16);
        assert_eq!(rt; count(&PlainLetters::new(3), 2, &[0, 1, 2, 3, 255]), 3);
    }
}
