// Crossing tables, computed: in which state a rule that stands on the last letter of a word comes out of it.

#![tactic(auto)]

ghost use Rattle.std.specs.Prelude.{◌≡◌, ℕ, ◌<◌, Option};
ghost use Rattle.std.specs.Option.{unwrap_or};
ghost use Rattle.two_way.specs.declared.Verdict.{Verdict};
ghost use Rattle.two_way.specs.Automaton.{to};
ghost use Rattle.two_way.specs.Tables.{Table, cross, extended, verdict};
ghost use Rattle.two_way.specs.Rows.{of_row, row_of};
ghost use Rattle.crossing.specs.Computed.{empty_of, extended_of};

use register::{CrossingTable, NEVER};
use rules::{Direction, Rule, step};
use two_way::Verdict;

// The byte of the first arrival; the answer of a state stands at the state's number.
const FIRST: usize = 32;

// The table of the empty word.
pub fn empty_table<R: Rule>(rule: &R) -> CrossingTable
    ensures { result ≡ empty_of (R.Rule.meaning rule.now) }
{
    let first = past_left(rule, rule.start());
    table_of(rule, Some(first), |state| Some(past_left(rule, state)))
}

// The table of a word and one letter more.
pub fn extended_table<R: Rule>(rule: &R, before: &CrossingTable, letter: u8) -> CrossingTable
    ensures { result ≡ extended_of (R.Rule.meaning rule.now) before.now letter }
{
    table_after(rule, before, letter)
}

// The same, answer by answer. Apart from it, since this has a written proof: a planted bug is refused above, at the code.
fn table_after<R: Rule>(rule: &R, before: &CrossingTable, letter: u8) -> CrossingTable
    ensures { result ≡ extended_of (R.Rule.meaning rule.now) before.now letter }
{
    let first = first_after(rule, before, letter);
    table_of(rule, first, |state| crossed(rule, before, letter, state))
}

// The table with these answers: the one at the first arrival, and that of each state.
fn table_of<R: Rule, F: Fn(u8) -> Option<u8>>(
    rule: &R,
    first: Option<u8>,
    answer: F,
) -> CrossingTable
    requires { F.IsAlwaysCallable answer }
    ensures { (t : Table) → first ≡ t.first → ((q : ℕ) (p : Option ℕ) → q < (R.Rule.meaning rule.now).states → F.post answer q p → p ≡ t.at q) → result ≡ record { answers = row_of (R.Rule.meaning rule.now) t } }
{
    let mut answers = [NEVER; 33];
    // Not `array::from_fn`: that the closure, which calls another, gives the answers was not proved.
    for state in 0..rule.states() {
        answers[state as usize] = answer(state).unwrap_or(NEVER);
    }
    answers[FIRST] = first.unwrap_or(NEVER);
    CrossingTable::new(answers)
}

// The state in which the rule goes on from the left end.
fn past_left<R: Rule>(rule: &R, from: u8) -> u8
    ensures { result ≡ to (R.Rule.meaning rule.now) from (R.Rule.meaning rule.now).letters }
{
    step(rule, from, rule.letters()).to
}

// The state in which the rule leaves the letter to the right, first standing on it in the state `from`; none where it never does.
fn crossed<R: Rule>(rule: &R, before: &CrossingTable, letter: u8, from: u8) -> Option<u8>
    ensures { result ≡ cross (R.Rule.meaning rule.now) (of_row before.now.answers).at letter from }
{
    let turns = rule.states() + 1;
    let mut state = from;
    for _turn in 0..turns {
        let step = step(rule, state, letter);
        match step.direction {
            Direction::Right => return Some(step.to),
            Direction::Left => state = before.answer(step.to as usize)?,
        }
    }
    None
}

// The state of the first arrival past the letter.
fn first_after<R: Rule>(rule: &R, before: &CrossingTable, letter: u8) -> Option<u8>
    ensures { result ≡ (extended (R.Rule.meaning rule.now) (of_row before.now.answers) letter).first }
{
    crossed(rule, before, letter, before.answer(FIRST)?)
}

// The verdict of the words that have the table.
pub fn verdict_of<R: Rule>(rule: &R, table: &CrossingTable) -> Verdict
    ensures { result ≡ verdict (R.Rule.meaning rule.now) (of_row table.now.answers) }
{
    ended(rule, table).unwrap_or(Verdict::Loops)
}

// Whether the rule accepts or rejects the words that have the table; none where it does neither.
fn ended<R: Rule>(rule: &R, table: &CrossingTable) -> Option<Verdict>
    ensures { unwrap_or result Verdict.Loops ≡ verdict (R.Rule.meaning rule.now) (of_row table.now.answers) }
{
    let right = rule.letters() + 1;
    let mut state = table.answer(FIRST)?;
    for _turn in 0..rule.states() + 1 {
        if state == rule.accept() {
            return Some(Verdict::Accepts);
        }
        if state == rule.reject() {
            return Some(Verdict::Rejects);
        }
        state = table.answer(step(rule, state, right).to as usize)?;
    }
    None
}
