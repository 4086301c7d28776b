// Bytes and words, as they are printed.
ghost use Rattle.std.specs.Prelude.{◌++◌, Some};
ghost use Rattle.refusal.specs.Told.{area_name};
ghost use Rattle.std.specs.Fmt.{WritesOnOk};
ghost use Rattle.answers.specs.Spelling.{hex_text, spell, word_text};

use refusal::Area;
use std::fmt;

// Bytes as pairs of hexadecimal digits.
#[derive(Drop)]
pub struct Hex<'a> {
    pub bytes: &'a [u8],
}

// The name of an area, and its words.
#[derive(Drop)]
pub struct Listed<'a> {
    pub area: Area,
    pub words: &'a [u32],
}

// This and `write_words`: a format is a literal, so no function serves both.
fn write_hex<W: fmt::Write>(bytes: &[u8], f: &mut fmt::Formatter<W>) -> fmt::Result
    ensures { WritesOnOk W.write_str_gives f.old result (spell hex_text bytes.now) f.new }
{
    'bytes: for byte in bytes {
        write!(f, "{byte:02x}")?;
    }
    Ok(())
}

// Each word behind a space.
fn write_words<W: fmt::Write>(words: &[u32], f: &mut fmt::Formatter<W>) -> fmt::Result
    ensures { WritesOnOk W.write_str_gives f.old result (spell word_text words.now) f.new }
{
    'words: for word in words {
        write!(f, " {word}")?;
    }
    Ok(())
}

impl fmt::Display for Hex<'_> {
    ghost output = { λ h. Some (spell hex_text h.bytes.now) };

    fn fmt<W: fmt::Write>(&self, f: &mut fmt::Formatter<W>) -> fmt::Result {
        write_hex(self.bytes, f)
    }
}

impl fmt::Display for Listed<'_> {
    ghost output = { λ l. Some (area_name l.area ++ spell word_text l.words.now) };

    fn fmt<W: fmt::Write>(&self, f: &mut fmt::Formatter<W>) -> fmt::Result {
        write!(f, "{}", self.area)?;
        write_words(self.words, f)
    }
}
