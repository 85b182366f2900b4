// The one-way table of a rule: a row for each different crossing table.

#![tactic(auto)]

mod asking;
mod filling;
mod rows;
mod shelf;

pub use asking::ask;
pub use filling::{CAPACITY, fill};
pub use rows::DfaRow;
pub use shelf::Shelf;

#[cfg(test)]
mod tests {
    use super::*;
    use alphabets::PlainLetters;
    use register::CrossingTable;
    use rules::DistanceRule;

    // The last mark but one is a 1: a row for each pair of last marks.
    fn filled(places: usize) -> (Option<usize>, [DfaRow; 5]) {
        let mut tables = [CrossingTable::new([7; 33]); 5];
        let mut dfa = [DfaRow::new([9; 16], 9); 5];
        let Ok(rule) = DistanceRule::new(2, 2, 0b10) else {
            return (None, dfa);
        };
        let rows = fill(&rule, &mut tables[0..places.min(5)], &mut dfa);
        (rows, dfa)
    }

    #[test]
    fn rows_in_order(rt: HostRuntime) {
        let (rows, dfa) = filled(5);
        assert_eq!(rt; rows, Some(4));
        assert!(rt; dfa[0].cell(0) == 0 && dfa[0].cell(1) == 1 && dfa[0].verdict() == 2);
        assert!(rt; dfa[1].cell(0) == 2 && dfa[1].cell(1) == 3 && dfa[1].verdict() == 2);
        assert!(rt; dfa[2].cell(0) == 0 && dfa[2].cell(1) == 1 && dfa[2].verdict() == 1);
        assert!(rt; dfa[3].cell(0) == 2 && dfa[3].cell(1) == 3 && dfa[3].verdict() == 1);
        assert!(rt; dfa[4].cell(0) == 9 && dfa[4].verdict() == 9);
    }

    #[test]
    fn too_few_places(rt: HostRuntime) {
        let (rows, dfa) = filled(3);
        assert_eq!(rt; rows, None);
        assert!(rt; dfa[2].cell(0) == 0 && dfa[2].verdict() == 0);
        assert!(rt; dfa[3].cell(0) == 9 && dfa[3].verdict() == 9);
    }

    #[test]
    fn damaged(rt: HostRuntime) {
        let (_, dfa) = filled(5);
        let letters = PlainLetters::new(2);
        assert!(rt; ask(&letters, 4, &dfa, &[1, 0]).is_ok());
        assert!(rt; ask(&letters, 3, &dfa, &[1, 0]).is_err());
        assert!(rt; ask(&letters, 5, &dfa[0..4], &[1, 0]).is_err());
        assert!(rt; ask(&letters, 0, &dfa, &[]).is_err());
    }
}
