// The rows of a rule, written into lent memory.
ghost use Rattle.std.specs.Prelude.{◌≡◌, ℕ, ◌≤◌, [], length, OnSome};
ghost use Rattle.register.specs.Held.{held, places};
ghost use Rattle.dfa.specs.Filled.{capacity, rows_of, tables_left, dfa_left, Grown};

use crate::rows::DfaRow;
use crossing::{empty_table, extended_table, verdict_of};
use register::{Blank, CrossingTable, Register};
use rules::Rule;

// The most rows that a table has.
pub const CAPACITY: usize = 4096;

// Writes the rows of the rule into the places, and says how many they are; blanks the places where the rows are more.
// Two slices, not a struct of them, as in an engine's calls: what holds loans has to promise of them.
pub fn fill<R: Rule>(rule: &R, tables: &mut [CrossingTable], dfa: &mut [DfaRow]) -> Option<usize>
    ensures rows { result ≡ rows_of (R.Rule.meaning rule.now) (capacity tables.old dfa.old) }
    ensures tables { tables.new ≡ tables_left (R.Rule.meaning rule.now) (capacity tables.old dfa.old) tables.old }
    ensures dfa { dfa.new ≡ dfa_left (R.Rule.meaning rule.now) (capacity tables.old dfa.old) dfa.old }
{
    let places = tables.len().min(dfa.len()).min(CAPACITY);
    fill_all(rule, &mut tables[..places], &mut dfa[..places])
}

// The same where all places are to be used.
fn fill_all<R: Rule>(rule: &R, tables: &mut [CrossingTable], dfa: &mut [DfaRow]) -> Option<usize>
    requires { (length tables.old ≡ length dfa.old) × (length tables.old ≤ 4096) }
    ensures rows { result ≡ rows_of (R.Rule.meaning rule.now) (length tables.old) }
    ensures tables { tables.new ≡ tables_left (R.Rule.meaning rule.now) (length tables.old) tables.old }
    ensures dfa { dfa.new ≡ dfa_left (R.Rule.meaning rule.now) (length tables.old) dfa.old }
{
    let mut known = Register::new(tables);
    let rows = take_rows(rule, &mut known, dfa);
    if rows.is_none() {
        known.clear();
        dfa.fill(DfaRow::blank());
    }
    rows
}

// The rows alone: where they are more than the places, these have some of them.
// Rule and register are no struct: it would have to promise of the places' loan what the register's own calls promise.
fn take_rows<R: Rule>(
    rule: &R,
    known: &mut Register<CrossingTable>,
    dfa: &mut [DfaRow],
) -> Option<usize>
    requires { (held known.old ≡ []) × (length (places known.old) ≡ length dfa.old) × (length dfa.old ≤ 4096) }
    ensures rows { result ≡ rows_of (R.Rule.meaning rule.now) (length dfa.old) }
    ensures tables { OnSome result (places known.new ≡ tables_left (R.Rule.meaning rule.now) (length dfa.old) (places known.old)) }
    ensures dfa { OnSome result (dfa.new ≡ dfa_left (R.Rule.meaning rule.now) (length dfa.old) dfa.old) }
    ensures long { length (places known.new) ≡ length (places known.old) }
    ensures lent { known.new.keys.ghost_name ≡ known.old.keys.ghost_name }
{
    known.add(empty_table(rule))?;
    for (at, row) in dfa.iter_mut().enumerate() {
        let Some(table) = known.get(at) else {
            break;
        };
        let cells = take_row(rule, known, &table)?;
        *row = DfaRow::new(cells, verdict_of(rule, &table).into());
    }
    Some(known.len())
}

// The cells of a row: for each letter the row of the table that it leads to, which is added if it is new.
fn take_row<R: Rule>(
    rule: &R,
    known: &mut Register<CrossingTable>,
    table: &CrossingTable,
) -> Option<[u16; 16]>
    requires { length (places known.old) ≤ 4096 }
    ensures grown { Grown (R.Rule.meaning rule.now) table.now (places known.old) (held known.old) result (places known.new) (held known.new) }
    ensures long { length (places known.new) ≡ length (places known.old) }
    ensures lent { known.new.keys.ghost_name ≡ known.old.keys.ghost_name }
{
    let mut cells = [0; 16];
    // Not `iter_mut().zip(..)`: std says nothing of what is written through the items of a zip.
    for letter in 0..rule.letters() {
        cells[letter as usize] = known.add(extended_table(rule, table, letter))? as u16;
    }
    Some(cells)
}
