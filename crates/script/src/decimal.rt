// Decimal numbers.
ghost use Rattle.std.specs.Prelude.{◌≡◌, ◌≢◌, ℕ, List, MatchResult, slice_index};
ghost use Rattle.script.specs.Answers.{Decides, NoneIs, Reads};
ghost use Rattle.script.specs.Words.{Decimal, Integer, Number, Writes};
ghost use Rattle.std.specs.Option.{SomeIff};
ghost use Rattle.std.specs.Str.Iter.{LacksByte};
ghost use Rattle.std.specs.Str.Parse.{digits_value};
ghost use Rattle.script.specs.declared.unread.Unread.TheVariants.{NotUnderstood};
ghost use Rattle.script.specs.Integers.{number_solid, integer_solid};

use crate::unread::Unread;
use std::alloc::Global;

// A word with no plus sign in front, which `parse` would take.
fn without_plus(word: &str) -> Result<&str, Unread>
    ensures { MatchResult result (λ plain. (plain.now ≡ word.now) × (slice_index word.now 0 ≢ 43)) (λ unread. (slice_index word.now 0 ≡ 43) × (unread ≡ NotUnderstood)) }
{
    if word.starts_with('+') {
        Err(Unread::NotUnderstood)
    } else {
        Ok(word)
    }
}

// The number that a word of digits writes, where it is at most `max`. Lines have no such number: it stands for who reads others.
pub fn number(word: &str, max: u64) -> Option<u64>
    ensures { SomeIff result (Decimal max word.now) (digits_value 10 word.now) }
{
    let number = without_plus(word).ok()?.parse::<u64>().ok()?;
    (number <= max).then_some(number)
}

// A value that a word can write.
pub trait Entry: Sized {
    ghost writes: { List ℕ → Self → Type 0 };

    fn read(word: &str) -> Result<Self, Unread>
        ensures { Decides (writes word.now) result };

    // A word has no space in it.
    ghost solid: { (word : List ℕ) (x : Self) → writes word x → LacksByte 32 word };
}

// One impl for each width: a macro's impl has no ghost member.
impl Entry for u8 {
    ghost writes = { Number 255 };

    ghost solid = { number_solid 255 };

    fn read(word: &str) -> Result<u8, Unread> {
        Ok(without_plus(word)?.parse::<u8>()?)
    }
}

impl Entry for u16 {
    ghost writes = { Number 65535 };

    ghost solid = { number_solid 65535 };

    fn read(word: &str) -> Result<u16, Unread> {
        Ok(without_plus(word)?.parse::<u16>()?)
    }
}

// A word of an area, for one.
impl Entry for u32 {
    ghost writes = { Number 4294967295 };

    ghost solid = { number_solid 4294967295 };

    fn read(word: &str) -> Result<u32, Unread> {
        Ok(without_plus(word)?.parse::<u32>()?)
    }
}

impl Entry for u64 {
    ghost writes = { Number 18446744073709551615 };

    ghost solid = { number_solid 18446744073709551615 };

    fn read(word: &str) -> Result<u64, Unread> {
        Ok(without_plus(word)?.parse::<u64>()?)
    }
}

impl Entry for usize {
    ghost writes = { Number 18446744073709551615 };

    ghost solid = { number_solid 18446744073709551615 };

    fn read(word: &str) -> Result<usize, Unread> {
        Ok(without_plus(word)?.parse::<usize>()?)
    }
}

// A coefficient of the secret.
impl Entry for i8 {
    ghost writes = { Integer };

    ghost solid = { integer_solid };

    fn read(word: &str) -> Result<i8, Unread> {
        Ok(without_plus(word)?.parse::<i8>()?)
    }
}

// The values of words that are parted by one space.
pub fn numbers<T: Entry + Drop>(heap: Global, text: &str) -> Result<Vec<T>, Unread>
    ensures { Reads (λ v. Writes T.Entry.writes text.now v.items) (NoneIs (Writes T.Entry.writes text.now)) result }
{
    let mut values = Vec::new(heap);
    'words: for word in text.split(' ') {
        values.push(T::read(word)?)?;
    }
    Ok(values)
}
