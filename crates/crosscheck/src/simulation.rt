// Runs of a drawn rule, step by step, and the tables of its words, found by running.
use crate::drawing::{Drawing, Way};
use std::alloc::{AllocError, Global};
use std::collections::{BTreeSet, VecDeque};

// How a run ends, by numbers of the simulation's own: the library's have to be the same.
#[derive(Clone, Copy, PartialEq, Eq)]
pub enum Ending {
    Accepts = 1,
    Rejects = 2,
    Loops = 3,
}

// What a run came to, and its steps.
#[derive(Clone, Copy, PartialEq, Eq)]
pub struct Outcome {
    pub ending: Ending,
    pub steps: u32,
}

fn moved(place: usize, way: Way) -> usize {
    match way {
        Way::On => place.saturating_add(1),
        Way::Back => place.saturating_sub(1),
    }
}

// A rule and the word that it runs over.
#[derive(Clone, Copy)]
pub struct Tape<'a> {
    pub drawing: &'a Drawing,
    pub word: &'a [u8],
}

impl<'a> Tape<'a> {
    // The column that a position shows.
    fn column(&self, place: usize) -> u8 {
        if place == 0 {
            return self.drawing.letters;
        }
        self.word
            .get(place - 1)
            .copied()
            .unwrap_or(self.drawing.letters.saturating_add(1))
    }

    // The configuration after one step.
    fn after(&self, state: u8, place: usize) -> (u8, usize) {
        let step = self.drawing.step(state, self.column(place));
        (step.to, moved(place, step.way))
    }

    // The run over the whole word: it loops where it meets a configuration again.
    pub(crate) fn run(&self, heap: Global) -> Result<Outcome, AllocError> {
        let mut met = BTreeSet::new(heap);
        let mut state = self.drawing.start;
        let mut place = 0;
        for steps in 0..u32::MAX {
            if state == self.drawing.accept {
                let ending = Ending::Accepts;
                return Ok(Outcome { ending, steps });
            }
            if state == self.drawing.reject {
                let ending = Ending::Rejects;
                return Ok(Outcome { ending, steps });
            }
            if !met.insert((state, place))? {
                break;
            }
            (state, place) = self.after(state, place);
        }
        let turns = (self.word.len().saturating_add(2) & 0xff_ffff) as u32;
        let going = u32::from(self.drawing.states.saturating_sub(2));
        Ok(Outcome {
            ending: Ending::Loops,
            steps: going.saturating_mul(turns),
        })
    }

    // The state in which a run from here first leaves the word to the right; none where it never does.
    fn leaves(&self, heap: Global, from: u8, at: usize) -> Result<Option<u8>, AllocError> {
        let mut met = BTreeSet::new(heap);
        let mut state = from;
        let mut place = at;
        for _ in 0..u32::MAX {
            if place > self.word.len() {
                return Ok(Some(state));
            }
            if !met.insert((state, place))? {
                break;
            }
            (state, place) = self.after(state, place);
        }
        Ok(None)
    }

    // What the word does to a run, from each state on its last position, and from the beginning.
    fn behaviour(&self, heap: Global) -> Result<Vec<Option<u8>>, AllocError> {
        let mut answers = Vec::new(heap);
        for state in 0..self.drawing.states {
            answers.push(self.leaves(heap, state, self.word.len())?)?;
        }
        answers.push(self.leaves(heap, self.drawing.start, 0)?)?;
        Ok(answers)
    }
}

// How many words there are of which no two behave alike: a word is tried where a shorter one was new. None where they are `most` or more.
pub(crate) fn different_words(
    heap: Global,
    drawing: &Drawing,
    most: usize,
) -> Result<Option<usize>, AllocError> {
    let mut known = BTreeSet::new(heap);
    let mut waiting = VecDeque::new(heap);
    let empty = Tape { drawing, word: &[] };
    known.insert(empty.behaviour(heap)?)?;
    waiting.push_back(Vec::new(heap))?;
    for _ in 0..most {
        let Some(word) = waiting.pop_front() else {
            return Ok(Some(known.len()));
        };
        for letter in 0..drawing.letters {
            let mut longer = word.clone()?;
            longer.push(letter)?;
            let tape = Tape {
                drawing,
                word: &longer,
            };
            if known.insert(tape.behaviour(heap)?)? {
                waiting.push_back(longer)?;
            }
        }
    }
    Ok(None)
}
