// The first place at which a test holds.
#![tactic(auto)]

ghost use Rattle.search.specs.First.{First, first_at};
ghost use Rattle.std.specs.Prelude.{◌≡◌, leb};

// The lowest index of a word that is `limit` or more.
pub fn first_at_least(words: &[u32], limit: u32) -> Option<usize>
    ensures value { result ≡ first_at (leb limit) words.now }
    ensures first { First 0 (leb limit) words.now result }
{
    words.iter().position(|word| *word >= limit)
}
