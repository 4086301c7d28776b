// One line.
ghost use Rattle.std.specs.Prelude.{◌≡◌, ℕ, List, ◌∷◌, ◌++◌, Ok, codes};
ghost use Rattle.refusal.specs.Told.{area_name};
ghost use Rattle.script.specs.Answers.{Decides, Finds, Judges, NoneIs, Reads};
ghost use Rattle.script.specs.Lines.{Asks, Calls, Fills, Listed, Quiet, Says, Valued, spaced};
ghost use Rattle.script.specs.Streams.{stream_name};
ghost use Rattle.script.specs.declared.command.Command.TheVariants.{Nothing};
ghost use Rattle.std.specs.Str.Iter.{LacksByte};

use crate::command::{Action, Call, Command, SetName, Shown, Supply};
use crate::decimal::{Entry, numbers};
use crate::hex::{hex_32, hex_bytes};
use crate::stream::Stream;
use crate::unread::Unread;
use refusal::Area;
use std::alloc::Global;
use std::str::from_utf8;

// The first word, and what stands behind the space after it, if there is one.
fn first_word(text: &str) -> (&str, Option<&str>)
    ensures parts { text.now ≡ spaced result.0.now result.1 }
    ensures solid { LacksByte 32 result.0.now }
{
    match text.split_once(' ') {
        Some((word, rest)) => (word, Some(rest)),
        None => (text, None),
    }
}

// What stands before the first space of a text, and behind it.
fn parted(text: &str) -> Result<(&str, &str), Unread>
    ensures { Judges (λ parts. (text.now ≡ parts.0.now ++ (32 ∷ parts.1.now)) × LacksByte 32 parts.0.now) (LacksByte 32 text.now) result }
{
    text.split_once(' ').ok_or(Unread::NotUnderstood)
}

// The values of a list, of which there may be none.
fn listed<T: Entry + Drop>(heap: Global, rest: Option<&str>) -> Result<Vec<T>, Unread>
    ensures { Reads (λ v. (name : List ℕ) → Listed T.Entry.writes name (spaced name rest.entry) v.items)
        ((name : List ℕ) → NoneIs (Listed T.Entry.writes name (spaced name rest.entry))) result }
{
    match rest {
        Some(text) => numbers::<T>(heap, text),
        None => Ok(Vec::new(heap)),
    }
}

// The one value behind a name.
fn one<T: Entry>(rest: Option<&str>) -> Result<T, Unread>
    ensures { Judges (λ x. (name : List ℕ) → Valued T.Entry.writes name (spaced name rest.entry) x)
        ((name : List ℕ) → NoneIs (Valued T.Entry.writes name (spaced name rest.entry))) result }
{
    T::read(rest.ok_or(Unread::NotUnderstood)?)
}

// The area of a name. No `FromStr`: `Area` is another crate's, which would need an error type for this one use.
fn named_area(name: &str) -> Result<Area, Unread>
    ensures { Decides (λ area. name.now ≡ area_name area) result }
{
    match name {
        "public" => Ok(Area::Public),
        "key" => Ok(Area::Key),
        _ => Err(Unread::NotUnderstood),
    }
}

fn poke_at(area: Area, place: &str) -> Result<Action, Unread>
    ensures { Decides (Asks (codes "poke " ++ (area_name area ++ (32 ∷ place.now)))) result }
{
    let (index, value) = parted(place)?;
    Ok(Action::Poke {
        area,
        index: usize::read(index)?,
        value: u32::read(value)?,
    })
}

fn poke(rest: Option<&str>) -> Result<Action, Unread>
    ensures { Decides (Asks (spaced (codes "poke") rest.entry)) result }
{
    let (name, place) = parted(rest.ok_or(Unread::NotUnderstood)?)?;
    poke_at(named_area(name)?, place)
}

fn show(rest: Option<&str>) -> Result<Action, Unread>
    ensures { Decides (Asks (spaced (codes "show") rest.entry)) result }
{
    Ok(Action::Show(named_area(rest.ok_or(Unread::NotUnderstood)?)?))
}

fn generator(heap: Global, text: &str) -> Result<Supply, Unread>
    ensures { Reads (λ s. (name : List ℕ) → Fills name (name ++ (codes " generator " ++ text.now)) s)
        ((name : List ℕ) → NoneIs (Fills name (name ++ (codes " generator " ++ text.now)))) result }
{
    let (seed, count) = parted(text)?;
    // The number first: where it is none, no room is asked for.
    let count = u64::read(count)?;
    Ok(Supply::Generator {
        seed: hex_32(heap, seed.as_bytes())?,
        count,
    })
}

// What a word source is to become, by what stands behind its name.
fn supply(heap: Global, text: &str) -> Result<Supply, Unread>
    ensures { Reads (λ s. (name : List ℕ) → Fills name (name ++ (32 ∷ text.now)) s)
        ((name : List ℕ) → NoneIs (Fills name (name ++ (32 ∷ text.now)))) result }
{
    match first_word(text) {
        ("tape", rest) => Ok(Supply::Tape(listed::<u32>(heap, rest)?)),
        ("generator", Some(rest)) => generator(heap, rest),
        ("health", rest) => Ok(Supply::Health {
            cutoff: one::<u32>(rest)?,
        }),
        _ => Err(Unread::NotUnderstood),
    }
}

fn fill(heap: Global, stream: Stream, rest: Option<&str>) -> Result<Action, Unread>
    ensures { Finds (Asks (spaced (stream_name stream) rest.entry)) result }
{
    let text = rest.ok_or(Unread::NotUnderstood)?;
    Ok(Action::Fill {
        stream,
        supply: supply(heap, text)?,
    })
}

fn new_till(rest: Option<&str>) -> Result<Action, Unread>
    ensures { Decides (Asks (spaced (codes "till") rest.entry)) result }
{
    Ok(Action::NewTill(rest.map(u16::read).transpose()?))
}

fn check(heap: Global, rest: Option<&str>) -> Result<Call, Unread>
    ensures { Finds (Calls (spaced (codes "check") rest.entry)) result }
{
    match rest {
        None => Ok(Call::Check(Shown::Bytes(Vec::new(heap)))),
        Some("last") => Ok(Call::Check(Shown::Last)),
        Some(word) => Ok(Call::Check(Shown::Bytes(hex_bytes(heap, word.as_bytes())?))),
    }
}

fn sign(heap: Global, text: &str) -> Result<Call, Unread>
    ensures { Finds (Calls (codes "sign " ++ text.now)) result }
{
    let (digest, tries) = parted(text)?;
    // The number first, as in `generator`.
    let tries = u32::read(tries)?;
    Ok(Call::Sign {
        digest: hex_32(heap, digest.as_bytes())?,
        tries,
    })
}

// A line that may be repeated.
fn call(heap: Global, text: &str) -> Result<Call, Unread>
    ensures { Finds (Calls text.now) result }
{
    match first_word(text) {
        ("check", rest) => check(heap, rest),
        ("sign", Some(rest)) => sign(heap, rest),
        ("remask", None) => Ok(Call::Remask),
        ("report", None) => Ok(Call::Report),
        _ => Err(Unread::NotUnderstood),
    }
}

fn repeat(heap: Global, rest: Option<&str>) -> Result<Action, Unread>
    ensures { Finds (Asks (spaced (codes "repeat") rest.entry)) result }
{
    let (count, line) = parted(rest.ok_or(Unread::NotUnderstood)?)?;
    match u32::read(count)? {
        0 => Err(Unread::NotUnderstood),
        times => Ok(Action::Repeat {
            times,
            call: call(heap, line)?,
        }),
    }
}

fn action(heap: Global, text: &str) -> Result<Action, Unread>
    ensures { Finds (Asks text.now) result }
{
    match first_word(text) {
        ("load", None) => Ok(Action::Load),
        ("a", rest) => Ok(Action::WordsOfA(listed::<u32>(heap, rest)?)),
        ("t", rest) => Ok(Action::WordsOfT(listed::<u32>(heap, rest)?)),
        ("secret", rest) => Ok(Action::Secret(listed::<i8>(heap, rest)?)),
        ("shares", rest) => Ok(Action::Shares(one::<u8>(rest)?)),
        ("nonces", rest) => fill(heap, Stream::Nonces, rest),
        ("masks", rest) => fill(heap, Stream::Masks, rest),
        ("work", rest) => Ok(Action::Work(one::<u32>(rest)?)),
        ("room", rest) => Ok(Action::Room(one::<u32>(rest)?)),
        ("poke", rest) => poke(rest),
        ("show", rest) => show(rest),
        ("till", rest) => new_till(rest),
        ("repeat", rest) => repeat(heap, rest),
        _ => Ok(Action::Once(call(heap, text)?)),
    }
}

// The set of a name. No `FromStr`: for this one use it is the same match with its own clauses around it.
fn start(name: &str) -> Result<Command, Unread>
    ensures { Decides (Says (codes "set " ++ name.now)) result }
{
    match name {
        "S" => Ok(Command::Start(SetName::S)),
        "I" => Ok(Command::Start(SetName::I)),
        _ => Err(Unread::NotUnderstood),
    }
}

fn command(heap: Global, text: &str) -> Result<Command, Unread>
    requires { Quiet text.now → ⊥ }
    ensures { Finds (Says text.now) result }
{
    match first_word(text) {
        ("set", Some(name)) => start(name),
        _ => Ok(Command::Act(action(heap, text)?)),
    }
}

// What a line asks for.
pub fn parse(heap: Global, line: &[u8]) -> Result<Command, Unread>
    ensures says { Finds (Says line.now) result }
    ensures quiet { Quiet line.now → result ≡ Ok Nothing }
{
    match line {
        [] | [b'#', ..] => Ok(Command::Nothing),
        _ => command(heap, from_utf8(line)?),
    }
}
