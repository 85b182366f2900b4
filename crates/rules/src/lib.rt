// Rules that read words both ways, and three kinds of them: stored step by step, by a distance from the end, and one after another.
// The tests give a rule kind of their own, whose meaning these names tell.

#![tactic(auto)]

ghost use Rattle.std.specs.Prelude.{◌+◌, ◌-◌, if◌then◌else◌, nat_eq, nat_lt};
ghost use Rattle.rules.specs.Steps.{automaton, onward};
ghost use Rattle.std.proofs.Common.{rules};

mod distance;
mod numbers;
mod pair;
mod rule;
mod stored;

pub use distance::DistanceRule;
pub use numbers::Numbers;
pub use pair::PairRule;
pub use rule::{Direction, Move, Rule, onward, step};
pub use stored::StoredRule;

#[cfg(test)]
mod tests {
    use super::*;
    use std::test::Fail;

    // Accepts the words of the letters 0 and 1 with an even number of marks. State 0 has read an even number of them, state 1 an odd one;
    // accept is 2 and reject 3. It is no `Copy`: a rule need not be.
    #[derive(Drop)]
    struct EvenRule;

    impl Rule for EvenRule {
        ghost meaning = { λ _. automaton 4 2 0 2 3 (λ q c. (if nat_lt 1 q then (q, onward 2 c) else (if nat_eq c 3 then (q + 2, 0) else (if nat_eq c 2 then (q, 1) else (1 - q, 1))))) };

        ghost lawful = { Prim.search rules };

        fn states(&self) -> u8 {
            4
        }

        fn letters(&self) -> u8 {
            2
        }

        fn start(&self) -> u8 {
            0
        }

        fn accept(&self) -> u8 {
            2
        }

        fn reject(&self) -> u8 {
            3
        }

        fn next(&self, state: u8, column: u8) -> Option<Move> {
            let (to, direction) = match (state, column) {
                (0 | 1, 0 | 1) => (1 - state, Direction::Right),
                (0 | 1, 2) => (state, Direction::Right),
                (0 | 1, 3) => (state + 2, Direction::Left),
                (2 | 3, 0 | 1 | 2) => (state, Direction::Right),
                (2 | 3, 3) => (state, Direction::Left),
                _ => return None,
            };
            Some(Move { to, direction })
        }
    }

    // Whether a rule accepts the word between the ends of a tape: `None` where it has not decided after 100 steps.
    fn run<R: Rule>(rule: &R, tape: &[u8]) -> Option<bool> {
        let mut state = rule.start();
        let mut place = 0usize;
        for _ in 0..100u8 {
            if state == rule.accept() || state == rule.reject() {
                return Some(state == rule.accept());
            }
            let step = rule.next(state, *tape.get(place)?)?;
            state = step.to;
            place = match step.direction {
                Direction::Right => place.checked_add(1)?,
                Direction::Left => place.checked_sub(1)?,
            };
        }
        None
    }

    #[test]
    fn a_stored_rule_keeps_the_laws(rt: HostRuntime) -> Result<(), Fail> {
        let mut steps = [[(0, 1); 18]; 32];
        steps[0][2] = (0, 0);
        steps[1][0] = (1, 1);
        steps[1][1] = (1, 1);
        steps[1][2] = (1, 0);
        steps[2][1] = (2, 1);
        steps[2][2] = (1, 0);
        let numbers = Numbers {
            states: 3,
            letters: 1,
            start: 2,
            accept: 0,
            reject: 1,
        };
        let rule = StoredRule::from_steps(numbers, &steps).ok_or("no rule")?;
        assert_eq!(rt; run(&rule, &[1, 0, 2]), Some(true));
        assert_eq!(rt; run(&rule, &[1, 2]), Some(false));
        steps[2][2] = (1, 1);
        assert!(rt; StoredRule::from_steps(numbers, &steps).is_none());
        Ok(())
    }

    #[test]
    fn a_users_rule_goes_into_a_pair(rt: HostRuntime) -> Result<(), Fail> {
        let second = DistanceRule::new(2, 2, 0b10)?;
        assert_eq!(rt; run(&second, &[2, 1, 3]), Some(false));
        let pair = PairRule::new(EvenRule, second);
        assert!(rt; pair.check().is_ok());
        assert_eq!(rt; run(&pair, &[2, 0, 1, 1, 0, 3]), Some(true));
        assert_eq!(rt; run(&pair, &[2, 0, 1, 0, 1, 3]), Some(false));
        assert_eq!(rt; run(&pair, &[2, 1, 1, 0, 3]), Some(false));
        Ok(())
    }

    #[test]
    fn a_pair_of_34_states_does_not_fit(rt: HostRuntime) -> Result<(), Fail> {
        let rule = DistanceRule::new(14, 2, 1)?;
        let checked = PairRule::new(rule, rule).check();
        assert_eq!(rt; checked.map_err(|refusal| u8::from(refusal.fault)), Err(17));
        Ok(())
    }
}
