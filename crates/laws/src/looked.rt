// What a look at a record answers: the lines that still have the number recorded, and the others.
#[derive(Clone, Copy, PartialEq, Eq, Debug)]
pub struct Looked {
    pub current: u64,
    pub gone: u64,
}
