// Numbers that look random and are the same in every run.
ghost use Rattle.std.specs.Prelude.{◌<◌, ◌≤◌};

#[derive(Drop)]
pub struct Random {
    state: u64,
}

impl Random {
    pub(crate) fn new(seed: u64) -> Random {
        Random { state: seed | 1 }
    }

    // The state shifted and mixed with itself, by the usual three steps.
    pub(crate) fn next(&mut self) -> u64 {
        let mut x = self.state;
        x ^= x << 13;
        x ^= x >> 7;
        x ^= x << 17;
        self.state = x;
        x
    }

    // A number below `count`, which is 1 or more.
    pub(crate) fn below(&mut self, count: u8) -> u8
        requires { 0 < count }
        ensures { result < count }
    {
        (self.next() % u64::from(count)) as u8
    }
}
