// A walk: the rule itself runs over the marks, in both directions.
ghost use Rattle.std.specs.Prelude.{◌≡◌, ◌+◌, ◌<◌, ◌≤◌, map, length};
ghost use Rattle.two_way.specs.Runs.{column, step as stepped};
ghost use Rattle.engine.specs.Walks.{walked, walk_answer};

use alphabets::Alphabet;
use refusals::{Fault, Refusal};
use rules::{Direction, Rule, step};
use two_way::Verdict;

// The most marks that are walked.
pub const LONGEST: usize = 65_536;

// What a walk found: the verdict, and the steps up to the one that enters accept or reject.
#[derive(Clone, Copy, PartialEq, Eq, Debug)]
pub struct Walked {
    pub verdict: Verdict,
    pub steps: u32,
}

// Runs the rule over the marks; where it loops, the count is (states - 2) * (marks + 2).
pub fn walk<R: Rule, L: Alphabet>(
    rule: &R,
    alphabet: &L,
    marks: &[L::Mark],
) -> Result<Walked, Refusal>
    ensures { result ≡ walk_answer (R.Rule.meaning rule.now) (L.Alphabet.letters alphabet.now) (map (L.Alphabet.letter alphabet.now) marks.now) }
{
    if rule.letters() != alphabet.letters() {
        return Err(Refusal::unplaced(Fault::LettersDiffer));
    }
    if marks.len() > LONGEST {
        return Err(Refusal::unplaced(Fault::TitleTooLong));
    }
    let tape = Tape {
        rule,
        alphabet,
        marks,
    };
    Ok(tape.run())
}

// A rule and the marks that it runs over, which its alphabet reads.
#[derive_where(Clone, Copy)]
struct Tape<'a, R, L: Alphabet> {
    rule: &'a R,
    alphabet: &'a L,
    marks: &'a [L::Mark],
}

// Where a run stands.
#[derive(Clone, Copy)]
struct Stand {
    state: u8,
    place: usize,
}

impl<'a, R: Rule, L: Alphabet> Tape<'a, R, L> {
    // From the start state at the left end, turn by turn.
    fn run(&self) -> Walked
        requires { length self.now.marks.now ≤ 65536 }
        ensures { result ≡ walked (R.Rule.meaning self.now.rule.now) (map (L.Alphabet.letter self.now.alphabet.now) self.now.marks.now) }
    {
        let limit = (self.rule.states() - 2) as u32 * (self.marks.len() as u32 + 2);
        let mut at = Stand {
            state: self.rule.start(),
            place: 0,
        };
        for steps in 0..limit + 1 {
            if at.state == self.rule.accept() {
                return Walked {
                    verdict: Verdict::Accepts,
                    steps,
                };
            }
            if at.state == self.rule.reject() {
                return Walked {
                    verdict: Verdict::Rejects,
                    steps,
                };
            }
            at = self.advance(at);
        }
        Walked {
            verdict: Verdict::Loops,
            steps: limit,
        }
    }

    // After one step.
    fn advance(&self, at: Stand) -> Stand
        requires { (at.state < (R.Rule.meaning self.now.rule.now).states) × ((at.place ≤ length self.now.marks.now + 1) × (length self.now.marks.now ≤ 65536)) }
        ensures after { record { state = result.state; place = result.place } ≡ stepped (R.Rule.meaning self.now.rule.now) (column (R.Rule.meaning self.now.rule.now) (map (L.Alphabet.letter self.now.alphabet.now) self.now.marks.now)) (record { state = at.state; place = at.place }) }
        ensures low { result.state < (R.Rule.meaning self.now.rule.now).states }
        ensures within { result.place ≤ length self.now.marks.now + 1 }
    {
        let step = step(self.rule, at.state, self.column(at.place));
        Stand {
            state: step.to,
            place: match step.direction {
                Direction::Right => at.place + 1,
                Direction::Left => at.place - 1,
            },
        }
    }

    // The column that a position shows.
    fn column(&self, place: usize) -> u8
        ensures { result ≡ column (R.Rule.meaning self.now.rule.now) (map (L.Alphabet.letter self.now.alphabet.now) self.now.marks.now) place }
    {
        if place == 0 {
            return self.rule.letters();
        }
        if place <= self.marks.len() {
            return self.alphabet.letter(&self.marks[place - 1]);
        }
        self.rule.letters() + 1
    }
}
