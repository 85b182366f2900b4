// Rules as the simulation knows them: tables of steps, drawn from the descriptions of the kinds, with no code of the library.
use crate::random::Random;
use std::fmt;

#[derive(Clone, Copy, PartialEq, Eq)]
pub enum Way {
    Back = 0,
    On = 1,
}

#[derive(Clone, Copy)]
pub struct Step {
    pub to: u8,
    pub way: Way,
}

#[derive(Clone, Copy)]
pub struct Drawing {
    pub states: u8,
    pub letters: u8,
    pub start: u8,
    pub accept: u8,
    pub reject: u8,
    // That of each state at each column.
    pub steps: [[Step; 18]; 32],
}

impl Drawing {
    fn new(states: u8, letters: u8, start: u8, accept: u8, reject: u8) -> Drawing {
        let nowhere = Step {
            to: 0,
            way: Way::Back,
        };
        Drawing {
            states,
            letters,
            start,
            accept,
            reject,
            steps: [[nowhere; 18]; 32],
        }
    }

    // The step of a state at a column; one out of range goes nowhere.
    pub(crate) fn step(&self, state: u8, column: u8) -> Step {
        let nowhere = Step {
            to: state,
            way: Way::Back,
        };
        match self.steps.get(state as usize) {
            Some(row) => row.get(column as usize).copied().unwrap_or(nowhere),
            None => nowhere,
        }
    }

    fn put(&mut self, state: u8, column: u8, to: u8, way: Way) {
        if let Some(row) = self.steps.get_mut(state as usize) {
            if let Some(step) = row.get_mut(column as usize) {
                *step = Step { to, way };
            }
        }
    }

    // The way that takes a run on: back at the right end, else forward.
    fn onward(&self, column: u8) -> Way {
        if column > self.letters {
            Way::Back
        } else {
            Way::On
        }
    }

    // The accept and the reject state keep themselves.
    fn put_halts(&mut self) {
        for column in 0..18 {
            let way = self.onward(column);
            self.put(self.accept, column, self.accept, way);
            self.put(self.reject, column, self.reject, way);
        }
    }

    // The steps as stored rules take them, with numbers for the ways.
    pub(crate) fn numbered(&self) -> [[(u8, u8); 18]; 32] {
        let mut numbered = [[(0, 0); 18]; 32];
        for (row, steps) in numbered.iter_mut().zip(&self.steps) {
            for (pair, step) in row.iter_mut().zip(steps) {
                *pair = (step.to, step.way as u8);
            }
        }
        numbered
    }
}

// The sizes, and then a line for each state.
impl fmt::Display for Drawing {
    fn fmt<W: fmt::Write>(&self, f: &mut fmt::Formatter<W>) -> fmt::Result {
        let (states, letters) = (self.states, self.letters);
        let (start, accept, reject) = (self.start, self.accept, self.reject);
        write!(f, "{states}\t{letters}\t{start}\t{accept}\t{reject}\n")?;
        for state in 0..states {
            for column in 0..letters.saturating_add(2) {
                let step = self.step(state, column);
                let (to, way) = (step.to, step.way as u8);
                write!(f, "{to}.{way} ")?;
            }
            f.write_str("\n")?;
        }
        Ok(())
    }
}

fn any_way(random: &mut Random) -> Way {
    if random.below(2) == 1 {
        Way::On
    } else {
        Way::Back
    }
}

// Any rule: each step leads anywhere, but the ends turn back.
pub(crate) fn any_rule(random: &mut Random, most_states: u8, most_letters: u8) -> Drawing {
    let states = 2 + random.below(most_states.clamp(2, 32) - 1);
    let letters = 1 + random.below(most_letters.clamp(1, 16));
    let accept = random.below(states);
    let reject = (accept + 1 + random.below(states - 1)) % states;
    let mut drawing = Drawing::new(states, letters, random.below(states), accept, reject);
    for state in 0..states {
        for column in 0..letters {
            let to = random.below(states);
            drawing.put(state, column, to, any_way(random));
        }
        drawing.put(state, letters, random.below(states), Way::On);
        drawing.put(state, letters + 1, random.below(states), Way::Back);
    }
    drawing.put_halts();
    drawing
}

// The mark at a distance from the end is in the set.
pub(crate) fn by_distance(distance: u8, letters: u8, set: u16) -> Drawing {
    let accept = distance.saturating_add(1);
    let reject = distance.saturating_add(2);
    let mut drawing = Drawing::new(reject.saturating_add(1), letters, 0, accept, reject);
    for column in 0..18 {
        let way = drawing.onward(column);
        match way {
            Way::On => drawing.put(0, column, 0, Way::On),
            Way::Back => drawing.put(0, column, 1, Way::Back),
        }
        if column >= letters {
            for state in 1..=distance {
                drawing.put(state, column, reject, way);
            }
            continue;
        }
        for state in 1..distance {
            drawing.put(state, column, state + 1, Way::Back);
        }
        let marked = column < 16 && set & (1 << column) != 0;
        let found = if marked { accept } else { reject };
        drawing.put(distance, column, found, Way::On);
    }
    drawing.put_halts();
    drawing
}

// The first rule, then the second: the second's states come after the first's.
pub(crate) fn in_turn(first: &Drawing, second: &Drawing) -> Drawing {
    let shift = first.states;
    let mut drawing = Drawing::new(
        shift.saturating_add(second.states),
        first.letters,
        first.start,
        shift.saturating_add(second.accept),
        shift.saturating_add(second.reject),
    );
    let reject = drawing.reject;
    for column in 0..18 {
        for state in 0..first.states {
            let step = first.step(state, column);
            drawing.put(state, column, step.to, step.way);
        }
        for state in 0..second.states {
            let step = second.step(state, column);
            drawing.put(
                shift.saturating_add(state),
                column,
                shift.saturating_add(step.to),
                step.way,
            );
        }
        drawing.put(first.accept, column, first.accept, Way::Back);
        drawing.put(first.reject, column, reject, drawing.onward(column));
    }
    let step = second.step(second.start, second.letters);
    drawing.put(
        first.accept,
        first.letters,
        shift.saturating_add(step.to),
        step.way,
    );
    drawing
}
