// Text that is put into a slice piece by piece, up to a room. A piece that ends past the slice is counted and not written, so that
// the same calls measure and write.
ghost use Rattle.std.specs.Prelude.{◌≤◌};

use text::write_number;

// A tab and the digits of the largest number.
const LONGEST_FIELD: usize = 21;

// The next piece begins at `at`.
#[derive(Drop)]
pub(crate) struct Writer<'a> {
    out: &'a mut [u8],
    at: usize,
    room: usize,
    ghost within: { at ≤ room },
}

impl<'a> Writer<'a> {
    ghost use Rattle.std.specs.Prelude.{◌≡◌, ◌∷◌, decimal};
    ghost use Rattle.text.specs.Parts.{tab};
    ghost use Rattle.listings.specs.Placed.{Placed, Continues};

    pub(crate) fn new(room: usize, out: &'a mut [u8]) -> Writer<'a>
        ensures room { result.room ≡ room }
        ensures start { result.at ≡ 0 }
        ensures kept { result.out.now ≡ out.old }
        ensures lent { result.out.ghost_name ≡ out.entry.ghost_name }
    {
        Writer { out, at: 0, room }
    }

    // How many bytes were put.
    pub(crate) fn len(&self) -> usize
        ensures { result ≡ self.now.at }
    {
        self.at
    }

    // None where the bytes end past the room.
    pub(crate) fn put(&mut self, bytes: &[u8]) -> Option<()>
        ensures placed { Placed self.old bytes.now result self.new }
        ensures continues { Continues self.old self.new }
    {
        if bytes.len() > self.room - self.at {
            return None;
        }
        let end = self.at + bytes.len();
        if end <= self.out.len() {
            self.out[self.at..end].copy_from_slice(bytes);
        }
        self.at = end;
        Some(())
    }

    // A tab and a number.
    pub(crate) fn put_field(&mut self, n: u64) -> Option<()>
        ensures placed { Placed self.old (tab ∷ decimal n) result self.new }
        ensures continues { Continues self.old self.new }
    {
        let mut field = [b'\t'; LONGEST_FIELD];
        let digits = write_number(n, &mut field[1..]).unwrap();
        self.put(&field[..digits + 1])
    }
}
