// What a line asks for.
use crate::stream::Stream;
use refusal::Area;

// A parameter set, by its name.
#[derive(Clone, Copy)]
pub enum SetName {
    S,
    I,
}

// What a till is shown: these bytes, or the last record made.
#[derive(Drop)]
pub enum Shown {
    Bytes(Vec<u8>),
    Last,
}

// What a word source becomes.
#[derive(Drop)]
pub enum Supply {
    // These words.
    Tape(Vec<u32>),
    // So many words, stretched from a seed.
    Generator { seed: [u8; 32], count: u64 },
    // What it was, under a health check.
    Health { cutoff: u32 },
}

// A line that has an answer, and may be repeated. The card's calls stand here again, since a line knows nothing of cards.
#[derive(Drop)]
pub enum Call {
    Check(Shown),
    Sign { digest: [u8; 32], tries: u32 },
    Remask,
    Report,
}

// A line that wants a set to have been chosen.
#[derive(Drop)]
pub enum Action {
    WordsOfA(Vec<u32>),
    WordsOfT(Vec<u32>),
    Secret(Vec<i8>),
    Shares(u8),
    Fill {
        stream: Stream,
        supply: Supply,
    },
    Load,
    // The sizes of the areas that a signing is lent.
    Work(u32),
    Room(u32),
    Poke {
        area: Area,
        index: usize,
        value: u32,
    },
    Show(Area),
    NewTill(Option<u16>),
    Once(Call),
    Repeat {
        times: u32,
        call: Call,
    },
}

#[derive(Drop)]
pub enum Command {
    // An empty line, or a comment.
    Nothing,
    Start(SetName),
    Act(Action),
}
