// State names as keys.
ghost use Rattle.std.specs.Prelude.{◌≡◌, ◌≤◌, [], length, take, IfSome, ◌==◌};
ghost use Rattle.std.proofs.Common.{ap};
ghost use Rattle.register.specs.Names.{as_name, name_of, bytes_of, alike_names};
ghost use Rattle.std.specs.Str.{bytes_eq};
ghost use Rattle.std.proofs.lemmas.Bool.{and_parts, and_from, eqb-true, eq-eqb};
ghost use Rattle.std.proofs.lemmas.Slice.Eq.{bytes_eq-Decides};
ghost use Rattle.register.specs.declared.names.Name.{Name};
ghost use Rattle.register.specs.NameKeyLemmas.{both};

use crate::keys::{Blank, Key};

const LONGEST: usize = 16;

// A name of 1 to 16 bytes. All bytes after the last are 0, so that equal names have equal contents. No String: names need no heap.
#[derive(Clone, Copy, PartialEq, Eq)]
pub struct Name {
    len: u8,
    bytes: [u8; LONGEST],
}

impl Name {
    // The name with these bytes, or none where they are no bytes or more than 16.
    pub fn new(text: &[u8]) -> Option<Name>
        ensures made { result ≡ name_of text.now }
        ensures reads { IfSome result (λ n. bytes_of n ≡ text.now) }
    {
        if text.is_empty() || text.len() > LONGEST {
            None
        } else {
            Some(filled(text))
        }
    }

    pub fn bytes(&self) -> &[u8]
        ensures { result.now ≡ bytes_of self.now }
    {
        first_bytes(&self.bytes, self.len as usize)
    }
}

// The first `count` bytes, or all of them where they are fewer.
fn first_bytes(bytes: &[u8], count: usize) -> &[u8]
    ensures { result.now ≡ take count bytes.now }
{
    &bytes[0..count.min(bytes.len())]
}

fn filled(text: &[u8]) -> Name
    requires { length text.now ≤ 16 }
    ensures made { result ≡ as_name text.now }
    ensures reads { bytes_of result ≡ text.now }
{
    let mut bytes = [0; LONGEST];
    bytes[0..text.len()].copy_from_slice(text);
    Name {
        bytes,
        len: text.len() as u8,
    }
}

impl Key for Name {
    ghost alike = { alike_names };

    ghost decides = { λ x y. (
      (λ t. let p = and_parts (x.len == y.len) (bytes_eq x.bytes y.bytes) t in
          both x y (eqb-true x.len y.len p.0) ((bytes_eq-Decides x.bytes y.bytes).0 p.1)),
      (λ e. and_from (x.len == y.len) (bytes_eq x.bytes y.bytes) (eq-eqb x.len y.len (ap (λ (n : Name). n.len) e)) ((bytes_eq-Decides x.bytes y.bytes).1 (ap (λ (n : Name). n.bytes) e))),
    ) };

    fn same(&self, other: &Name) -> bool {
        self == other
    }
}

// No bytes: no state has this name.
impl Blank for Name {
    ghost blank = { as_name [] };

    fn blank() -> Name {
        Name {
            bytes: [0; LONGEST],
            len: 0,
        }
    }
}
