ghost use Rattle.rules.specs.Distance.{Ranged};

pub mod answers;

// Accepts the words whose mark at the distance from the end is in the set: bit a of `set` is 1 for the letter a.
#[derive(Clone, Copy, Debug)]
pub struct DistanceRule {
    distance: u8,
    letters: u8,
    set: u16,
    ghost ranged: { Ranged distance letters set },
}
