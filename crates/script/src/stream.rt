// The two word sources, by name.
ghost use Rattle.script.specs.Streams.{stream_name};
ghost use Rattle.std.specs.Prelude.{Some};

use std::fmt;

#[derive(Clone, Copy)]
pub enum Stream {
    Nonces,
    Masks,
}

impl fmt::Display for Stream {
    ghost output = { λ s. Some (stream_name s) };

    fn fmt<W: fmt::Write>(&self, f: &mut fmt::Formatter<W>) -> fmt::Result {
        match self {
            Stream::Nonces => write!(f, "nonces"),
            Stream::Masks => write!(f, "masks"),
        }
    }
}
