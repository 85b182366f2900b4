// Two-way automata, their runs and their crossing tables: the definitions and the theorems that a library of verdicts rests on.
// The functions below the conversions do nothing. The contract of each is a theorem of specs/Theorems.antt, so the crate checks only with its proof.

#![tactic(auto)]

ghost use Rattle.std.specs.Prelude.{◌≡◌, Ok};
ghost use Rattle.std.specs.Option.{ok_or};
ghost use Rattle.two_way.specs.Verdicts.{number_of, named};
ghost use Rattle.two_way.specs.declared.Verdict.{Verdict};
ghost use Rattle.two_way.specs.Theorems.{CrossingsTell, VerdictsAgree, RightCongruence, WalksEnd, RowsCount, PairsDecide, RowsTell};

// What an automaton says of a word.
#[derive(Clone, Copy, PartialEq, Eq, Debug)]
pub enum Verdict {
    Accepts = 1,
    Rejects = 2,
    Loops = 3,
}

// The verdict's number.
impl From<Verdict> for u8 {
    ghost from_gives = { λ verdict number. number ≡ number_of verdict };

    fn from(verdict: Verdict) -> u8 {
        verdict as u8
    }
}

// A number that no verdict has.
#[derive(Clone, Copy, PartialEq, Eq, Debug)]
pub struct UnknownVerdict(pub u8);

impl TryFrom<u8> for Verdict {
    type Error = UnknownVerdict;

    ghost try_from_gives = { λ number r. r ≡ ok_or (named number) (record { 0 = number }) };

    fn try_from(number: u8) -> Result<Verdict, UnknownVerdict>
        ensures named { result ≡ ok_or (named number) (record { 0 = number }) }
        ensures law { (v : Verdict) → (result ≡ Ok v → number_of v ≡ number) × (number_of v ≡ number → result ≡ Ok v) }
    {
        match number {
            1 => Ok(Verdict::Accepts),
            2 => Ok(Verdict::Rejects),
            3 => Ok(Verdict::Loops),
            _ => Err(UnknownVerdict(number)),
        }
    }
}

// What a crossing table answers is where the run comes out of the word.
pub fn crossings_tell()
    ensures { CrossingsTell }
{}

// The verdict of a word's table is the verdict of the run.
pub fn verdicts_agree()
    ensures { VerdictsAgree }
{}

// Words with the same table are told apart by nothing that follows them.
pub fn right_congruence()
    ensures { RightCongruence }
{}

// A walk ends within a known number of steps, with one verdict and one count.
pub fn walks_end()
    ensures { WalksEnd }
{}

// Tables that are closed under the letters answer for every word, and different ones are as many as can be.
pub fn rows_count()
    ensures { RowsCount }
{}

// A pair accepts what both accept, and rejects what the first rejects, or accepts and the second rejects.
pub fn pairs_decide()
    ensures { PairsDecide }
{}

// A row of 33 bytes holds what its table answers.
pub fn rows_tell()
    ensures { RowsTell }
{}
