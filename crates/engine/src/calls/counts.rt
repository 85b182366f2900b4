// What a listing needs of an engine besides the rows themselves.
ghost use Rattle.std.specs.Prelude.{◌≡◌};

use crate::calls::Engine;
use alphabets::Alphabet;
use rules::Rule;

impl<R: Rule, L: Alphabet> Engine<R, L> {
    // How many rows are in use.
    pub fn rows(&self) -> usize
        ensures { result ≡ self.now.rows }
    {
        self.rows
    }

    // How many letters the alphabet has.
    pub fn letters(&self) -> u8
        ensures { result ≡ L.Alphabet.letters self.now.alphabet }
    {
        self.alphabet.letters()
    }
}
