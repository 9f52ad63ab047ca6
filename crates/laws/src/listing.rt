// What a list answers: how many places of the page it filled, and the first guess that it did not try.
#[derive(Clone, Copy, PartialEq, Eq, Debug)]
pub struct Listing {
    pub count: usize,
    pub next: u32,
}
