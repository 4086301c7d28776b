// What a line is told, and how it is written.
ghost use Rattle.std.specs.Prelude.{◌≡◌, ℕ, List, ◌++◌, OnOk, string_bytes, take};
ghost use Rattle.std.specs.Io.KnownBytes.{Appends};
ghost use Rattle.runner.specs.Steps.{area_line, telling_text};

use crate::put;
use refusal::Area;
use std::io;
use std::io::Write;

// What a line is told: the text that was written for it, or an area with its words.
#[derive(Drop)]
pub(crate) enum Telling {
    Text,
    Words { area: Area, words: Vec<u32> },
}

// How long a text becomes before it is written, where more of it may follow.
const PIECE: usize = 4096;

// Writes a text that has become long, and empties it.
fn spill<W: Write>(text: &mut String, out: &mut W) -> io::Result<()>
    ensures all { OnOk result ((moved : List ℕ) × Appends (W.contents out.old) (W.contents out.new) moved × (moved ++ string_bytes text.new ≡ string_bytes text.old)) }
    ensures front { (count : ℕ) × Appends (W.contents out.old) (W.contents out.new) (take count (string_bytes text.old)) }
{
    if text.len() < PIECE {
        return Ok(());
    }
    put(out, text.as_bytes())?;
    text.clear();
    Ok(())
}

// Writes an area's name and its words as a line, a piece at a time: no text is made of words that may be many.
fn put_area<W: Write>(area: Area, words: &[u32], text: &mut String, out: &mut W) -> io::Result<()>
    ensures all { OnOk result (Appends (W.contents out.old) (W.contents out.new) (area_line area words.now)) }
    ensures front { (count : ℕ) × Appends (W.contents out.old) (W.contents out.new) (take count (area_line area words.now)) }
{
    text.clear();
    write!(text, "{area}")?;
    'words: for word in words {
        spill(text, out)?;
        write!(text, " {word}")?;
    }
    write!(text, "\n")?;
    put(out, text.as_bytes())
}

// Writes what a line is told, with the text that stands ready. Where it fails, a front of that was written.
pub(crate) fn put_telling<W: Write>(
    telling: Telling,
    text: &mut String,
    out: &mut W,
) -> io::Result<()>
    ensures all { OnOk result (Appends (W.contents out.old) (W.contents out.new) (telling_text telling (string_bytes text.old))) }
    ensures front { (count : ℕ) × Appends (W.contents out.old) (W.contents out.new) (take count (telling_text telling (string_bytes text.old))) }
{
    match telling {
        Telling::Text => put(out, text.as_bytes()),
        Telling::Words { area, words } => put_area(area, words.as_slice(), text, out),
    }
}
