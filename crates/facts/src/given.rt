// A set of lines that is always in, over facts of any kind.
ghost use Rattle.sets.specs.Sets.{IsLines};
ghost use Rattle.std.specs.Prelude.{◌≡◌};

mod asked;

#[derive(Drop)]
pub struct Given<F> {
    below: F,
    lines: u64,
    ghost fits: { IsLines lines },
}

impl<F> Given<F> {
    // The lines over the facts below.
    pub fn new(below: F, lines: u64) -> Given<F>
        ensures below { result.below ≡ below }
        ensures lines { result.lines ≡ lines }
    {
        Given { below, lines }
    }
}
