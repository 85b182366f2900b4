// Why a call is refused, and where: the numbered conditions of every layer.

#![tactic(auto)]

ghost use Rattle.std.specs.Prelude.{◌≡◌, ◌↔◌, IsTrue};

mod fault;
mod refusal;

pub use fault::{Fault, Layer};
pub use refusal::Refusal;

#[cfg(test)]
mod tests {
    use super::*;
    use std::test::Fail;

    fn same(a: Fault, b: Fault) -> bool
        ensures { IsTrue result ↔ (a ≡ b) }
    {
        a == b
    }

    #[test]
    fn faults_are_equal_where_they_are_the_same(rt: HostRuntime) {
        assert!(rt; same(Fault::LineForm, Fault::LineForm));
        assert!(rt; !same(Fault::LineForm, Fault::NameLength));
    }

    #[test]
    fn a_refusal_is_told_by_a_line(rt: HostRuntime) -> Result<(), Fail> {
        let refusal = Refusal {
            fault: Fault::LetterOrColumn,
            line: 12,
            field: 3,
        };
        assert!(rt; refusal.line(rt.alloc())?.as_str() == "refused\t4\t12\t3\t2\n");
        assert_eq!(rt; u8::from(Fault::ListingTooLong), 19);
        assert_eq!(rt; Fault::ListingTooLong.layer(), Layer::Engine);
        Ok(())
    }
}
