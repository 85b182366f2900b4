// The states while a sheet is read.
ghost use Rattle.std.specs.Prelude.{◌≡◌, ◌≤◌, [], length};
ghost use Rattle.register.specs.Keys.{seat_of, keys_after};
ghost use Rattle.register.specs.Names.{alike_names};
ghost use Rattle.register.specs.Held.{held, places};

use register::{Name, Register};

// The names of the states, which are numbered as they first appear: 32 at most.
#[derive(Drop)]
pub struct States<'a> {
    names: Register<'a, Name>,
    ghost room: { length (places names) ≡ 32 },
}

impl<'a> States<'a> {
    pub(crate) fn new(places: &'a mut [Name; 32]) -> Self
        ensures { held result.names ≡ [] }
    {
        States {
            names: Register::new(places),
        }
    }

    // The state with this name, which is the next one if the name is new; none if there are 32 others.
    pub(crate) fn named(&mut self, name: Name) -> Option<u8>
        ensures place { result ≡ seat_of alike_names 32 (held self.old.names) name }
        ensures keys { held self.new.names ≡ keys_after alike_names 32 (held self.old.names) name }
    {
        let place = self.names.add(name)?;
        Some(place as u8)
    }

    pub(crate) fn count(&self) -> u8
        ensures count { result ≡ length (held self.now.names) }
        ensures few { result ≤ 32 }
    {
        self.names.len() as u8
    }
}
