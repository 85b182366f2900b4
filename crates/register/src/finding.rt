// Keys are found and added by their sameness.
ghost use Rattle.std.specs.Prelude.{◌≡◌};
ghost use Rattle.std.specs.List.{slice_get};
ghost use Rattle.register.specs.Keys.{place_of, Differ, Tells, Added};
ghost use Rattle.register.specs.Held.{held, places};
ghost use Rattle.register.specs.Seats.{Seated};

use crate::Register;
use crate::keys::Key;

impl<'a, K: Key> Register<'a, K> {
    // The key at a place, or none past the last key.
    pub fn get(&self, index: usize) -> Option<K>
        ensures { result ≡ slice_get (held self.now) index }
    {
        self.keys[..self.count].get(index).copied()
    }

    // The place of a key, or none.
    pub fn find(&self, key: &K) -> Option<usize>
        ensures place { result ≡ place_of K.Key.alike (held self.now) key.now }
        ensures exactly { Tells (held self.now) key.now result }
    {
        first_place(&self.keys[..self.count], key)
    }

    // The place of a key, which is added after the others if it is new; none if it is new and no place is left.
    pub fn add(&mut self, key: K) -> Option<usize>
        ensures added { Added K.Key.alike (places self.old) (held self.old) key result (places self.new) (held self.new) }
        ensures lent { self.new.keys.ghost_name ≡ self.old.keys.ghost_name }
    {
        if let Some(place) = self.seat_for(&key) {
            return Some(place);
        }
        let place = self.count;
        if place == self.keys.len() {
            return None;
        }
        self.keys[place] = key;
        self.count += 1;
        Some(place)
    }

    // The place of a key, with what adding it comes to.
    fn seat_for(&self, key: &K) -> Option<usize>
        ensures { Seated K.Key.alike (places self.now) self.now.count key.now result }
    {
        self.find(key)
    }
}

// The place of a key among different ones.
fn first_place<K: Key>(keys: &[K], key: &K) -> Option<usize>
    requires { Differ keys.now }
    ensures place { result ≡ place_of K.Key.alike keys.now key.now }
    ensures exactly { Tells keys.now key.now result }
{
    keys.iter().position(|k| k.same(key))
}
