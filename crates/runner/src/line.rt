// What one line comes to: a step of the world, and a text.
ghost use Rattle.std.specs.Prelude.{◌≡◌, [], IfOk, MatchResult, OnOk, string_bytes};
ghost use Rattle.answers.specs.Texts.{told_text};
ghost use Rattle.runner.specs.Steps.{Acts, ComesTo, Fails, Stays, Takes, calls_text, line_of, not_understood, telling_text};

use crate::telling::Telling;
use answers::{Answer, Told};
use script::{Action, Command, Unread, parse};
use std::alloc::{AllocError, Global};
use world::World;

// Writes what a call answered, with the record that it made.
fn tell(world: &World, answer: Answer, text: &mut String) -> Result<(), AllocError>
    requires { string_bytes text.old ≡ [] }
    ensures { OnOk result (string_bytes text.new ≡ line_of (told_text answer world.now.made.items)) }
{
    let told = Told {
        answer,
        made: world.made(),
    };
    write!(text, "{told}\n")
}

// Writes how many of some calls did what they were asked, and what the last one answered.
fn tell_calls(
    world: &World,
    times: u32,
    done: u32,
    last: Option<Answer>,
    text: &mut String,
) -> Result<(), AllocError>
    requires { string_bytes text.old ≡ [] }
    ensures { OnOk result (string_bytes text.new ≡ calls_text times done last world.now) }
{
    match last {
        None => write!(text, "repeated {times} ok {done}\n"),
        Some(answer) => {
            let told = Told {
                answer,
                made: world.made(),
            };
            write!(text, "repeated {times} ok {done}\n{told}\n")
        }
    }
}

// Carries a line out that wants a world. One that pokes past the end of its area is not understood.
fn carry_out(
    heap: Global,
    world: &mut World,
    action: Action,
    text: &mut String,
) -> Result<Telling, Unread>
    requires { string_bytes text.old ≡ [] }
    ensures { MatchResult result (λ told. Acts world.old action world.new (telling_text told (string_bytes text.new))) (Fails world.old action world.new) }
{
    match action {
        Action::WordsOfA(words) => world.set_a(words),
        Action::WordsOfT(words) => world.set_t(words),
        Action::Secret(secret) => world.set_secret(secret),
        Action::Shares(shares) => world.set_shares(heap, shares)?,
        Action::Work(words) => world.set_work(words),
        Action::Room(bytes) => world.set_room(bytes),
        Action::NewTill(last) => world.new_till(heap, last)?,
        Action::Poke { area, index, value } => {
            if !world.poke(area, index, value) {
                return Err(Unread::NotUnderstood);
            }
        }
        Action::Fill { stream, supply } => {
            let answer = world.fill(heap, stream, supply)?;
            write!(text, "{answer}\n")?;
            return Ok(Telling::Text);
        }
        Action::Load => {
            let answer = world.load(heap)?;
            write!(text, "{answer}\n")?;
            return Ok(Telling::Text);
        }
        Action::Show(area) => {
            let words = world.show(heap, area)?;
            return Ok(Telling::Words { area, words });
        }
        Action::Once(call) => {
            let answer = world.call(heap, &call)?;
            tell(world, answer, text)?;
            return Ok(Telling::Text);
        }
        Action::Repeat { times, call } => {
            let (done, last) = world.repeat(heap, times, &call)?;
            tell_calls(world, times, done, last, text)?;
            return Ok(Telling::Text);
        }
    }
    Ok(Telling::Text)
}

// Carries a line out. Before a set is chosen there is no world.
fn take_line(
    heap: Global,
    world: &mut Option<World>,
    line: &[u8],
    text: &mut String,
) -> Result<Telling, Unread>
    requires { string_bytes text.old ≡ [] }
    ensures { MatchResult result (λ told. Takes world.old line.now world.new (telling_text told (string_bytes text.new))) (Stays world.old line.now world.new) }
{
    match parse(heap, line)? {
        Command::Nothing => Ok(Telling::Text),
        Command::Start(set) => {
            *world = Some(World::new(heap, set)?);
            Ok(Telling::Text)
        }
        Command::Act(action) => match world {
            Some(world) => carry_out(heap, world, action, text),
            None => Err(Unread::NotUnderstood),
        },
    }
}

fn not_understood(number: usize, text: &mut String) -> Result<Telling, AllocError>
    requires { string_bytes text.old ≡ [] }
    ensures { IfOk result (λ told. telling_text told (string_bytes text.new) ≡ not_understood number) }
{
    write!(text, "line {number} not understood\n")?;
    Ok(Telling::Text)
}

// The same, and a line that is not understood is told by its number. The text stands in a room that one line leaves to the next.
pub(crate) fn told_line(
    heap: Global,
    world: &mut Option<World>,
    number: usize,
    line: &[u8],
    text: &mut String,
) -> Result<Telling, AllocError>
    ensures { IfOk result (λ told. ComesTo number world.old line.now world.new (telling_text told (string_bytes text.new))) }
{
    text.clear();
    match take_line(heap, world, line, text) {
        Ok(told) => Ok(told),
        Err(Unread::NotUnderstood) => {
            text.clear();
            not_understood(number, text)
        }
        Err(Unread::Memory) => Err(AllocError),
    }
}
