// One step: with all the lines of `needs` in, the line `gives` too.
ghost use Rattle.facts.specs.Steps.{Fires, lines_in};
ghost use Rattle.std.specs.Prelude.{◌≡◌, ◌<◌};

#[derive(Clone, Copy, PartialEq, Eq, Debug, Default)]
pub struct Step {
    pub needs: u64,
    pub gives: u32,
}

impl Step {
    // The set after the step: with its line, if its needs are in.
    pub(crate) fn fire(&self, set: u64) -> u64
        requires { self.now.gives < 64 }
        ensures { Fires self.now set result }
    {
        if sets::within(self.needs, set) {
            sets::with(set, self.gives)
        } else {
            set
        }
    }

    // Every line in the step, needs and gives.
    pub(crate) fn lines(&self) -> u64
        requires { self.now.gives < 64 }
        ensures { result ≡ lines_in self.now }
    {
        self.needs | 1 << self.gives
    }
}
