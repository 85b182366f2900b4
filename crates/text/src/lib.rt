// Text as sheets and listings have it: lines, fields parted by tabs, decimal numbers.

#![tactic(auto)]

mod lines;
mod numbers;
mod output;
mod parts;

pub use lines::{Line, Lines};
pub use numbers::read_number;
pub use output::{write_bytes, write_number};
pub use parts::{Parts, fields};

#[cfg(test)]
mod tests {
    use super::*;
    use std::test::Fail;

    #[test]
    fn numbers_are_read_and_written(rt: HostRuntime) {
        assert_eq!(rt; read_number(b"0", 16), Some(0));
        assert_eq!(rt; read_number(b"16", 16), Some(16));
        assert_eq!(rt; read_number(b"17", 16), None);
        assert_eq!(rt; read_number(b"07", 16), None);
        assert_eq!(rt; read_number(b"+1", 16), None);
        assert_eq!(rt; read_number(b"", 16), None);
        assert_eq!(rt; read_number(b"4294967296", u32::MAX), None);
        let mut out = [b'.'; 6];
        assert_eq!(rt; write_number(4096u32, &mut out), Some(4));
        assert!(rt; out == *b"4096..");
        assert_eq!(rt; write_number(1_000_000u64, &mut out), None);
        assert_eq!(rt; write_bytes(b"ab", &mut out), Some(2));
        assert!(rt; out == *b"ab96..");
    }

    #[test]
    fn lines_and_fields_are_parted(rt: HostRuntime) -> Result<(), Fail> {
        let mut lines = Lines::new(b"a\t\tb\n\nc");
        let first = lines.next().ok_or("no first line")?;
        assert!(rt; first.ended);
        let mut parts = fields(first.text);
        assert!(rt; parts.next().ok_or("no field")? == b"a".as_slice());
        assert!(rt; parts.next().ok_or("no field")? == b"".as_slice());
        assert!(rt; parts.next().ok_or("no field")? == b"b".as_slice());
        assert!(rt; parts.next().is_none());
        assert!(rt; lines.next().ok_or("no second line")?.text.is_empty());
        assert!(rt; !lines.next().ok_or("no last line")?.ended);
        assert!(rt; lines.next().is_none());
        Ok(())
    }
}
