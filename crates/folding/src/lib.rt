// From a sheet to the listing of its one-way table, in one call.

#![tactic(auto)]

ghost use Rattle.std.specs.Prelude.{◌≡◌, take, IfOk};
ghost use Rattle.spelling.specs.Reading.{sheet_read};
ghost use Rattle.folding.specs.Folded.{folded, ListsRule};

use alphabets::{Alphabet, PlainLetters};
use dfa::DfaRow;
use engine::Engine;
use listings::write_listing;
use loading::read_sheet;
use refusals::Refusal;
use register::CrossingTable;
use rules::Rule;

// Reads a sheet, builds its rule over plain letters and writes the listing; answers how many bytes that has.
// Three slices, not a struct of them, as in an engine's calls: what holds loans has to promise of them.
pub fn fold_sheet(
    sheet: &[u8],
    tables: &mut [CrossingTable],
    dfa: &mut [DfaRow],
    out: &mut [u8],
) -> Result<usize, Refusal>
    ensures folded { record { answer = result; left = record { tables = tables.new; dfa = dfa.new; out = out.new } } ≡ folded (sheet_read sheet.now) (record { tables = tables.old; dfa = dfa.old; out = out.old }) }
    ensures law { IfOk result (λ n. ListsRule sheet.now (take n out.new)) }
{
    fold(sheet, tables, dfa, out)
}

// The same by its definition alone, with no written proof: a planted bug is refused here, at the code.
fn fold(
    sheet: &[u8],
    tables: &mut [CrossingTable],
    dfa: &mut [DfaRow],
    out: &mut [u8],
) -> Result<usize, Refusal>
    ensures { record { answer = result; left = record { tables = tables.new; dfa = dfa.new; out = out.new } } ≡ folded (sheet_read sheet.now) (record { tables = tables.old; dfa = dfa.old; out = out.old }) }
{
    read_build_list(sheet, tables, dfa, out)
}

// The three calls, one after another.
fn read_build_list(
    sheet: &[u8],
    tables: &mut [CrossingTable],
    dfa: &mut [DfaRow],
    out: &mut [u8],
) -> Result<usize, Refusal>
    ensures { record { answer = result; left = record { tables = tables.new; dfa = dfa.new; out = out.new } } ≡ folded (sheet_read sheet.now) (record { tables = tables.old; dfa = dfa.old; out = out.old }) }
{
    let rule = read_sheet(sheet)?;
    let mut engine = Engine::new(rule, PlainLetters::new(rule.letters()));
    engine.build(tables, dfa)?;
    write_listing(&engine, dfa, out)
}
