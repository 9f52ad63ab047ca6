// Where answers are printed.
ghost use Rattle.std.specs.Prelude.{◌≡◌, ◌≤◌, length};

// A buffer, and the place where its next byte goes.
#[derive(Drop)]
pub struct Printer<'a> {
    pub(crate) buffer: &'a mut [u8],
    pub(crate) at: usize,
    ghost inside: { at ≤ length buffer.now },
}

impl<'a> Printer<'a> {
    // At the buffer's start.
    pub fn new(buffer: &'a mut [u8]) -> Printer<'a>
        ensures same { result.buffer.ghost_name ≡ buffer.entry.ghost_name }
        ensures start { (result.buffer.now ≡ buffer.old) × (result.at ≡ 0) }
    {
        Printer { buffer, at: 0 }
    }
}
