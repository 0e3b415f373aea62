// What a line asks for, and what it is answered.
use rule::Settings;

// A line of one of the five shapes, with its numbers.
#[derive(Clone, Copy, PartialEq, Eq)]
pub enum Command {
    Settings(Settings),
    Add { lo: u32, hi: u32 },
    Estimate,
    Count { level: u32, lo: u32, hi: u32 },
    Next { level: u32, from: u32 },
}

// The numbers of a line, at most five, with zeros after them: a row and its count, since there is no heap.
#[derive(Clone, Copy)]
pub struct Numbers {
    pub count: usize,
    pub values: [u32; 5],
}

// The answer to a line that isn't refused, which `put` stores as text.
#[derive(Clone, Copy, PartialEq, Eq)]
pub enum Answer {
    Kept { level: u32, cells: u32 },
    Exact(u64),
    About(u64),
    Count(u32),
    Next(Option<u32>),
}
