// The fields of a catalogue's records.
ghost use Rattle.std.specs.Prelude.{◌≡◌};
ghost use Rattle.alphabets.specs.Fields.{field_letter};
ghost use Rattle.std.proofs.Common.{rules};

use crate::Alphabet;

// A series statement that is traced has this byte as its first indicator.
const TRACED: u8 = 0x31;

// A field's tag and its first indicator.
#[derive(Clone, Copy)]
pub struct Field {
    pub tag: u16,
    pub indicator: u8,
}

// The title, series statements and series added entries, standard numbers, and all other fields.
#[derive(Clone, Copy)]
pub struct CatalogueFields;

impl Alphabet for CatalogueFields {
    type Mark = Field;

    ghost letters = { λ _. 6 };

    ghost letter = { λ _ f. field_letter f };

    ghost some = { Prim.search rules };

    ghost few = { Prim.search rules };

    ghost below = { Prim.search rules };

    fn letters(&self) -> u8 {
        6
    }

    fn letter(&self, mark: &Field) -> u8 {
        match mark.tag {
            245 => 0,
            490 => { if mark.indicator == TRACED { 2 } else { 1 } }
            800 | 810 | 811 | 830 => 3,
            20 => 4,
            _ => 5,
        }
    }
}
