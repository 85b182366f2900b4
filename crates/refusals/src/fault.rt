// The conditions by which a call is refused.
ghost use Rattle.std.specs.Prelude.{◌≡◌, ◌↔◌, nat_eq, IsTrue};
ghost use Rattle.std.specs.Ordering.{on};
ghost use Rattle.refusals.specs.Numbers.{number_of, layer_of, layer_number};
ghost use Rattle.refusals.specs.declared.fault.Fault.{Fault};
ghost use Rattle.std.specs.Cmp.Rules.{comparing};
ghost use Rattle.std.proofs.Common.{rules};

// Where in the work a condition is found.
#[derive(Clone, Copy, PartialEq, Eq, Debug)]
pub enum Layer {
    Lines = 1,
    Words = 2,
    Rule = 3,
    Engine = 4,
}

// The layer's number.
impl From<Layer> for u8 {
    ghost from_gives = { λ layer number. number ≡ layer_number layer };

    fn from(layer: Layer) -> u8 {
        layer as u8
    }
}

// One case for each condition.
#[derive(Clone, Copy, Debug, Eq)]
pub enum Fault {
    // The sheet has more than 32,768 bytes.
    SheetTooLong = 1,
    // A line is not of its form, or the sheet is empty.
    LineForm = 2,
    // A name has no byte, or more than 16.
    NameLength = 3,
    // The number of letters is not 1 to 16, or a column is none.
    LetterOrColumn = 4,
    // A direction is neither L nor R.
    Direction = 5,
    // The accept and the reject state have one name.
    SameHalts = 6,
    // A line is for the accept or the reject state.
    HaltLine = 7,
    // A name is the thirty-third.
    TooManyNames = 8,
    // A step goes off an end.
    EndDirection = 9,
    // A state and a column have a step already.
    StepTwice = 10,
    // A state lacks a column.
    StepMissing = 11,
    // The rule and the alphabet differ in their number of letters.
    LettersDiffer = 12,
    // No rows are in use.
    NoRows = 13,
    // The rows are more than there are places for.
    TooFewPlaces = 14,
    // The title has more than 65,536 marks.
    TitleTooLong = 15,
    // The table is too short, or a row of it is damaged.
    DamagedTable = 16,
    // The two rules of a pair do not fit.
    PairMisfit = 17,
    // A distance, a number of letters or a set of letters is out of range.
    DistanceRange = 18,
    // The listing has more bytes than are given.
    ListingTooLong = 19,
}

// The condition's number, which no other has.
impl From<Fault> for u8 {
    ghost from_gives = { λ fault number. number ≡ number_of fault };

    fn from(fault: Fault) -> u8
        ensures value { result ≡ number_of fault }
        ensures alone { (other : Fault) → number_of other ≡ result → other ≡ fault }
    {
        fault as u8
    }
}

impl Fault {
    pub fn layer(self) -> Layer
        ensures { result ≡ layer_of self }
    {
        match self {
            Fault::SheetTooLong | Fault::LineForm => Layer::Lines,
            Fault::NameLength | Fault::LetterOrColumn | Fault::Direction => Layer::Words,
            Fault::SameHalts | Fault::HaltLine | Fault::TooManyNames => Layer::Rule,
            Fault::EndDirection | Fault::StepTwice | Fault::StepMissing => Layer::Rule,
            _ => Layer::Engine,
        }
    }
}

// Two faults are the same exactly where their numbers are. Not derived: its contract says that equality is sameness.
impl PartialEq for Fault {
    ghost eq = { on number_of nat_eq };

    ghost laws = { Prim.search (comparing, rules) };

    fn eq(&self, other: &Fault) -> bool
        ensures value { result ≡ on number_of nat_eq self.now other.now }
        ensures same { IsTrue result ↔ (self.now ≡ other.now) }
    {
        u8::from(*self) == u8::from(*other)
    }
}
