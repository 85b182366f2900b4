// A register is cleared where its kind of key has a blank.
ghost use Rattle.std.specs.Prelude.{◌≡◌, [], length, replicate};
ghost use Rattle.register.specs.Held.{held, places};

use crate::Register;
use crate::keys::Blank;

impl<'a, K: Blank> Register<'a, K> {
    // Blanks every place, and leaves no key.
    pub fn clear(&mut self)
        ensures empty { held self.new ≡ [] }
        ensures blank { places self.new ≡ replicate (length (places self.old)) K.Blank.blank }
        ensures lent { self.new.keys.ghost_name ≡ self.old.keys.ghost_name }
    {
        self.count = 0;
        blank_all(self.keys);
    }
}

// Not `fill`, which asks for a `clone` that cannot fail: a kind of key need not show that.
fn blank_all<K: Blank>(keys: &mut [K])
    ensures { keys.new ≡ replicate (length keys.old) K.Blank.blank }
{
    for key in keys.iter_mut() {
        *key = K::blank();
    }
}
