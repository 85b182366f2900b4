// A register keeps different keys of one kind in their order of arrival, over a slice that is lent to it.

#![tactic(auto)]

ghost use Rattle.std.specs.Prelude.{◌≤◌, length, take};
ghost use Rattle.register.specs.Keys.{Differ};

mod clearing;
mod finding;
mod keys;
mod making;
mod names;
mod tables;

pub use keys::{Blank, Key};
pub use names::Name;
pub use tables::{CrossingTable, NEVER};

// The first `count` places have the keys; what the others have is no key. The places are lent, and no heap is asked for, so no Vec or map.
#[derive(Drop)]
pub struct Register<'a, K> {
    keys: &'a mut [K],
    count: usize,
    ghost fits: { count ≤ length keys.now },
    ghost different: { Differ (take count keys.now) },
}

#[cfg(test)]
mod tests {
    use super::*;
    use std::test::Fail;

    // The place has a name from before, which is no key.
    #[test]
    fn one_place(rt: HostRuntime) -> Result<(), Fail> {
        let old = Name::new(b"old").ok_or("old")?;
        let new = Name::new(b"new").ok_or("new")?;
        let mut places = [old];
        let mut register = Register::new(&mut places);
        assert_eq!(rt; register.add(new), Some(0));
        assert_eq!(rt; register.add(old), None);
        assert_eq!(rt; register.find(&new), Some(0));
        Ok(())
    }

    #[test]
    fn names(rt: HostRuntime) -> Result<(), Fail> {
        let name = Name::new(b"left").ok_or("left")?;
        assert_eq!(rt; name.bytes().len(), 4);
        assert!(rt; Name::new(b"").is_none() && Name::new(&[97; 17]).is_none());
        Ok(())
    }

    #[test]
    fn tables(rt: HostRuntime) {
        let mut answers = [NEVER; 33];
        answers[32] = 7;
        let table = CrossingTable::new(answers);
        assert_eq!(rt; table.answer(32), Some(7));
        assert_eq!(rt; table.answer(31), None);
        assert_eq!(rt; table.answer(33), None);
        assert!(rt; table != CrossingTable::blank());
        assert!(rt; !table.same(&CrossingTable::blank()));
    }
}
