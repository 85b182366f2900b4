// What a rule is: whatever answers these six questions, by the laws.
ghost use Rattle.std.specs.Prelude.{◌≡◌};
ghost use Rattle.two_way.specs.Automaton.{Automaton, Lawful, to, way};
ghost use Rattle.rules.specs.Steps.{direction_number, told, way_of, stay, onward};

// Which way a step goes.
#[derive(Clone, Copy, PartialEq, Eq, Debug)]
pub enum Direction {
    Left = 0,
    Right = 1,
}

// The direction's number.
impl From<Direction> for u8 {
    ghost from_gives = { λ direction number. number ≡ direction_number direction };

    fn from(direction: Direction) -> u8 {
        direction as u8
    }
}

// The next state, and which way the step goes.
#[derive(Clone, Copy, PartialEq, Eq, Debug)]
pub struct Move {
    pub to: u8,
    pub direction: Direction,
}

pub trait Rule {
    // The automaton whose answers these are.
    ghost meaning: { Self → Automaton };

    fn states(&self) -> u8
        ensures { result ≡ (meaning self.now).states };

    fn letters(&self) -> u8
        ensures { result ≡ (meaning self.now).letters };

    fn start(&self) -> u8
        ensures { result ≡ (meaning self.now).start };

    fn accept(&self) -> u8
        ensures { result ≡ (meaning self.now).accept };

    fn reject(&self) -> u8
        ensures { result ≡ (meaning self.now).reject };

    // The step of a state at a column.
    fn next(&self, state: u8, column: u8) -> Option<Move>
        ensures { told result ≡ (meaning self.now).next state column };

    ghost lawful: { (x : Self) → Lawful (meaning x) };
}

// The step of a state at a column; where there is none, the state stays and the direction is L.
pub fn step<R: Rule>(rule: &R, state: u8, column: u8) -> Move
    ensures to { result.to ≡ to (R.Rule.meaning rule.now) state column }
    ensures way { way (R.Rule.meaning rule.now) state column ≡ way_of result.direction }
{
    rule.next(state, column).unwrap_or(stay(state))
}

fn stay(state: u8) -> Move
    ensures { result ≡ stay state }
{
    Move {
        to: state,
        direction: Direction::Left,
    }
}

// The direction R, but L at the right end.
pub fn onward(letters: u8, column: u8) -> Direction
    ensures { direction_number result ≡ onward letters column }
{
    if column <= letters {
        Direction::Right
    } else {
        Direction::Left
    }
}
