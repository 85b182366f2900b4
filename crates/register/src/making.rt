// A register over a lent slice, whatever the kind of its keys.
ghost use Rattle.std.specs.Prelude.{◌≡◌, [], length};
ghost use Rattle.register.specs.Held.{held, places};

use crate::Register;

impl<'a, K> Register<'a, K> {
    // A register with no key. What the slice has is no key, and stays.
    pub fn new(keys: &'a mut [K]) -> Self
        ensures empty { held result ≡ [] }
        ensures kept { places result ≡ keys.old }
        ensures lent { result.keys.ghost_name ≡ keys.entry.ghost_name }
    {
        Register { keys, count: 0 }
    }

    // How many keys it has.
    pub fn len(&self) -> usize
        ensures { result ≡ length (held self.now) }
    {
        self.count
    }
}
