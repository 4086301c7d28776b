// The calls that a card answers.

/// Sign a digest, within so many tries; give the key new shares; or tell the counter and the share count.
#[derive(Clone, Copy)]
pub enum Call {
    Sign { digest: [u8; 32], tries: u32 },
    Remask,
    Report,
}
