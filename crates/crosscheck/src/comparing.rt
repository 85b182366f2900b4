// The library's walk, ask and build beside the simulation's runs.
use crate::drawing::Drawing;
use crate::random::Random;
use crate::simulation::{Outcome, Tape, different_words};
use alphabets::PlainLetters;
use dfa::DfaRow;
use engine::Engine;
use register::{Blank, CrossingTable};
use rules::Rule;
use std::alloc::{AllocError, Global};
use std::fmt;

// The rows that are lent to builds.
#[derive(Drop)]
pub struct Memory {
    pub tables: Vec<CrossingTable>,
    pub dfa: Vec<DfaRow>,
}

impl Memory {
    pub(crate) fn new(heap: Global, places: usize) -> Result<Memory, AllocError> {
        Ok(Memory {
            tables: vec![in heap; CrossingTable::blank(); places]?,
            dfa: vec![in heap; DfaRow::blank(); places]?,
        })
    }
}

// What was compared.
#[derive(Clone, Copy, Default)]
pub struct Tally {
    pub rules: u32,
    pub built: u32,
    pub counted: u32,
    pub walks: u32,
    pub asks: u32,
    pub mismatches: u32,
}

impl fmt::Display for Tally {
    fn fmt<W: fmt::Write>(&self, f: &mut fmt::Formatter<W>) -> fmt::Result {
        let (rules, built, counted) = (self.rules, self.built, self.counted);
        let (walks, asks, mismatches) = (self.walks, self.asks, self.mismatches);
        write!(f, "rules\t{rules}\nbuilt\t{built}\ncounted\t{counted}\n")?;
        write!(
            f,
            "walks\t{walks}\nasks\t{asks}\nmismatches\t{mismatches}\n"
        )
    }
}

// How many rows a build may have where they are counted apart.
const FEW: usize = 40;

// A comparison, and what it has counted so far.
#[derive(Drop)]
pub struct Comparison<'a> {
    pub rt: &'a HostRuntime,
    pub random: Random,
    pub memory: Memory,
    pub tally: Tally,
}

impl<'a> Comparison<'a> {
    // One rule: its rows, counted apart where they are few, and some words.
    pub(crate) fn compare<R: Rule + Drop>(
        &mut self,
        rule: R,
        drawing: &Drawing,
    ) -> anyhow::Result<()> {
        let heap = self.rt.alloc();
        let mut engine = Engine::new(rule, PlainLetters::new(drawing.letters));
        let built = engine.build(&mut self.memory.tables, &mut self.memory.dfa);
        self.tally.rules = self.tally.rules.saturating_add(1);
        if let Ok(rows) = built {
            self.tally.built = self.tally.built.saturating_add(1);
            if rows < FEW && drawing.letters < 4 {
                self.tally.counted = self.tally.counted.saturating_add(1);
                if different_words(heap, drawing, FEW)? != Some(rows) {
                    self.mismatch("rows", drawing, &[])?;
                }
            }
        }
        for _ in 0..10 {
            let word = self.any_word(drawing.letters)?;
            let tape = Tape {
                drawing,
                word: &word,
            };
            let expected = tape.run(heap)?;
            self.compare_walk(&engine, drawing, &word, expected)?;
            if built.is_ok() {
                self.compare_ask(&engine, drawing, &word, expected)?;
            }
        }
        Ok(())
    }

    // A word of no letter, of a few, or of many.
    fn any_word(&mut self, letters: u8) -> Result<Vec<u8>, AllocError> {
        let length = match self.random.below(8) {
            0 => 0,
            1 => 100 + self.random.below(150),
            _ => self.random.below(12),
        };
        let mut word = Vec::new(self.rt.alloc());
        for _ in 0..length {
            word.push(self.random.below(letters.max(1)))?;
        }
        Ok(word)
    }

    fn compare_walk<R: Rule>(
        &mut self,
        engine: &Engine<R, PlainLetters>,
        drawing: &Drawing,
        word: &[u8],
        expected: Outcome,
    ) -> anyhow::Result<()> {
        self.tally.walks = self.tally.walks.saturating_add(1);
        let same = engine.walk(word).is_ok_and(|walked| {
            u8::from(walked.verdict) == expected.ending as u8 && walked.steps == expected.steps
        });
        if same {
            return Ok(());
        }
        self.mismatch("walk", drawing, word)
    }

    // The ask of a word, where the rule is built.
    fn compare_ask<R: Rule>(
        &mut self,
        engine: &Engine<R, PlainLetters>,
        drawing: &Drawing,
        word: &[u8],
        expected: Outcome,
    ) -> anyhow::Result<()> {
        self.tally.asks = self.tally.asks.saturating_add(1);
        let asked = engine.ask(&self.memory.dfa, word);
        if asked.is_ok_and(|verdict| u8::from(verdict) == expected.ending as u8) {
            return Ok(());
        }
        self.mismatch("ask", drawing, word)
    }

    // Counts a comparison that came out otherwise, and prints all that is needed to repeat it.
    fn mismatch(&mut self, what: &str, drawing: &Drawing, word: &[u8]) -> anyhow::Result<()> {
        self.tally.mismatches = self.tally.mismatches.saturating_add(1);
        let rt = self.rt;
        rt.print(format!(in rt.alloc(); "mismatch\t{what}\t{drawing}")?)?;
        for letter in word {
            rt.print(format!(in rt.alloc(); "{letter} ")?)?;
        }
        rt.print("\n")?;
        Ok(())
    }
}
