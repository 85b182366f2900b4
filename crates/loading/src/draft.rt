// A rule while its sheet is read.
ghost use Rattle.std.specs.Prelude.{◌≡◌, ℕ, ◌+◌, ◌*◌, ◌<◌, ◌≤◌, true, false, ◌||◌, List, [], ◌∷◌, ◌++◌, length, map, None, MatchResult, ◌≢◌, ◌==◌, slice_index_or};
ghost use Rattle.std.specs.List.{range_with_len};
ghost use Rattle.text.specs.Lines.{Line as SheetLine};
ghost use Rattle.text.specs.Left.{line_of};
ghost use Rattle.refusals.specs.declared.fault.Fault.TheVariants.{StepMissing};
ghost use Rattle.register.specs.Names.{alike_names};
ghost use Rattle.register.specs.Held.{held};
ghost use Rattle.rules.specs.Steps.{at, direction_number, pair_of};
ghost use Rattle.rules.specs.Kinds.{of_stored};
ghost use Rattle.sheets.specs.Form.{refusal_at};
ghost use Rattle.spelling.specs.Said.{names as names_of, letters as letters_on};
ghost use Rattle.spelling.specs.Conditions.{first_met, step_conditions, wrong_way, lacks as lacking};
ghost use Rattle.spelling.specs.Reading.{rule_of};
ghost use Rattle.loading.specs.Fields.{Heads, Says};
ghost use Rattle.loading.specs.Telling.{told_on};
ghost use Rattle.loading.specs.Cells.{cell};
ghost use Rattle.loading.specs.Drawn.{Drawn, settled, Gap, Ready};

use crate::rows::Row;
use crate::states::States;
use crate::steps::Steps;
use crate::words::{Entry, Header};
use refusals::{Fault, Refusal};
use register::Name;
use rules::{Direction, Move, Numbers, StoredRule, onward};
use std::array;

// What the lines so far said; of the steps, those given, each at its state and column.
#[derive(Drop)]
pub struct Draft<'a> {
    pub header: Header,
    pub states: States<'a>,
    pub start: u8,
    pub accept: u8,
    pub reject: u8,
    pub steps: Steps,
    // How many lines were read.
    pub lines: u32,
}

impl Header {
    // Whether the name is that of the accept or of the reject state.
    fn halts(&self, name: &Name) -> bool
        ensures { result ≡ (alike_names self.now.accept name.now || alike_names self.now.reject name.now) }
    {
        self.accept == *name || self.reject == *name
    }

    // Whether the direction leads past an end.
    fn leads_out(&self, column: u8, direction: Direction) -> bool
        ensures { result ≡ wrong_way self.now.letters column (direction_number direction) }
    {
        match direction {
            Direction::Left => column == self.letters,
            Direction::Right => column == self.letters + 1,
        }
    }
}

// The next state and the direction's number, as a stored rule takes them.
fn pair_of(step: Move) -> (u8, u8)
    ensures { result ≡ pair_of step }
{
    (step.to, step.direction.into())
}

impl<'a> Draft<'a> {
    // The draft of line 1.
    pub(crate) fn new(header: Header, mut states: States<'a>) -> Self
        requires none { held states.names ≡ [] }
        requires heads { (h : SheetLine) × Heads h header }
        ensures drawn { (h : SheetLine) → Heads h header → Drawn h [] result }
        ensures lines { result.lines ≡ 1 }
    {
        let start = states.named(header.start).unwrap();
        let accept = states.named(header.accept).unwrap();
        let reject = states.named(header.reject).unwrap();
        Draft {
            header,
            states,
            start,
            accept,
            reject,
            steps: Steps::none(),
            lines: 1,
        }
    }

    // A later line: a step of a state that neither accepts nor rejects.
    pub(crate) fn enter(&mut self, row: Row, entry: Entry) -> Result<(), Refusal>
        ensures { (h : SheetLine) (es : List SheetLine) → Drawn h es self.old → Says (letters_on (h ∷ es)) (line_of row.entry.line) entry →
            MatchResult result
            (λ _. (first_met (step_conditions (h ∷ es) (line_of row.entry.line)) ≡ None) × Drawn h (es ++ (line_of row.entry.line ∷ [])) self.new × (self.new.lines ≡ row.entry.number))
            (λ e. told_on row.entry.number e (first_met (step_conditions (h ∷ es) (line_of row.entry.line)))) }
    {
        if self.header.halts(&entry.state) {
            return Err(row.refused(Fault::HaltLine, 2));
        }
        let state = self
            .states
            .named(entry.state)
            .ok_or(row.refused(Fault::TooManyNames, 2))?;
        let to = self
            .states
            .named(entry.next)
            .ok_or(row.refused(Fault::TooManyNames, 4))?;
        if self.header.leads_out(entry.column, entry.direction) {
            return Err(row.refused(Fault::EndDirection, 5));
        }
        if self.steps.at(state, entry.column).is_some() {
            return Err(row.refused(Fault::StepTwice, 3));
        }
        let direction = entry.direction;
        self.steps.put(state, entry.column, Move { to, direction });
        self.lines = row.number;
        Ok(())
    }

    // Whether the state accepts or rejects.
    fn is_halt(&self, state: u8) -> bool
        ensures { result ≡ (state == self.now.accept || state == self.now.reject) }
    {
        state == self.accept || state == self.reject
    }

    fn row_lacks(&self, state: u8) -> bool
        requires { state < 32 }
        ensures gap { result ≡ true → (c : ℕ) × (c < self.now.header.letters + 2) × (cell self.now.steps.cells state c ≡ None) }
        ensures full { result ≡ false → (c : ℕ) → c < self.now.header.letters + 2 → cell self.now.steps.cells state c ≢ None }
    {
        (0..self.header.letters + 2).any(|column| self.steps.at(state, column).is_none())
    }

    // Whether a state that neither accepts nor rejects lacks a column.
    fn state_lacks(&self, states: u8, state: u8) -> bool
        requires { (state < states) × (states ≤ 32) }
        ensures gap { result ≡ true → (c : ℕ) × Gap self.now states state c }
        ensures full { result ≡ false → (c : ℕ) → Gap self.now states state c → ⊥ }
    {
        !self.is_halt(state) && self.row_lacks(state)
    }

    // Whether any of the states does.
    fn lacks(&self, states: u8) -> bool
        requires { states ≤ 32 }
        ensures gap { result ≡ true → (q : ℕ) × (c : ℕ) × Gap self.now states q c }
        ensures full { result ≡ false → (q c : ℕ) → Gap self.now states q c → ⊥ }
    {
        (0..states).any(|state| self.state_lacks(states, state))
    }

    // A step of the rule: the accept and the reject state keep themselves, going R but at the right end.
    fn settled(&self, state: u8, column: u8) -> Move
        requires { (state < 32) × (column < 18) }
        ensures { pair_of result ≡ settled self.now state column }
    {
        if !self.is_halt(state) {
            return self.steps.at(state, column).unwrap_or(Move {
                to: 0,
                direction: Direction::Left,
            });
        }
        Move {
            to: state,
            direction: onward(self.header.letters, column),
        }
    }

    fn row(&self, state: u8) -> [(u8, u8); 18]
        requires { state < 32 }
        ensures { result ≡ map (settled self.now state) (range_with_len 0 18) }
    {
        array::from_fn(|column| pair_of(self.settled(state, column as u8)))
    }

    fn table(&self) -> [[(u8, u8); 18]; 32]
        ensures { (q c : ℕ) → q < 32 → c < 18 → at result q c ≡ settled self.now q c }
    {
        let mut table = [[(0, 0); 18]; 32];
        for (state, row) in table.iter_mut().enumerate() {
            *row = self.row(state as u8);
        }
        table
    }

    // The rule, unless a state lacks a column.
    pub(crate) fn finish(&self) -> Result<StoredRule, Refusal>
        requires { Ready self.now }
        ensures { (h : SheetLine) (es : List SheetLine) → Drawn h es self.now →
            MatchResult result (λ x. (lacking (h ∷ es) ≡ false) × (of_stored x ≡ rule_of (h ∷ es))) (λ e. (lacking (h ∷ es) ≡ true) × (e ≡ refusal_at StepMissing (self.now.lines + 1) 0)) }
    {
        let states = self.states.count();
        if self.lacks(states) {
            return Err(Refusal {
                fault: Fault::StepMissing,
                line: self.lines + 1,
                field: 0,
            });
        }
        let numbers = Numbers {
            states,
            letters: self.header.letters,
            start: self.start,
            accept: self.accept,
            reject: self.reject,
        };
        // The lines before were not refused, so the rule keeps the laws.
        let rule = StoredRule::from_steps(numbers, &self.table()).unwrap();
        Ok(rule)
    }
}
