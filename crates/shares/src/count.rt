// How many shares a value is in, known when the program runs.
ghost use Rattle.std.specs.Prelude.{◌≡◌, ◌<◌, ◌≤◌, ◌⊎◌, MatchOption};

/// A share count: 1 to 8.
#[derive(Clone, Copy)]
pub struct ShareCount {
    pub count: u8,
    ghost some: { 0 < count },
    ghost most: { count ≤ 8 },
}

impl ShareCount {
    pub fn new(count: u8) -> Option<ShareCount>
        ensures { MatchOption result ((count ≡ 0) ⊎ (8 < count)) (λ shares. shares.count ≡ count) }
    {
        if !(1..=8).contains(&count) {
            return None;
        }
        Some(ShareCount { count })
    }
}
