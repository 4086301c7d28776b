// Runs SHAKE256 and prints what it gives in hex. expected.py makes the file `stdout` by another implementation.
#![tactic(auto)]

ghost use Rattle.std.specs.Prelude.{◌<◌};

use shake::{Shake256, Squeezer};
use std::alloc::{AllocError, Global};
use std::io;

// Byte j of a message is (7 * j + 1) % 256.
fn message(heap: Global, len: usize) -> Result<Vec<u8>, AllocError> {
    let mut bytes = Vec::new(heap);
    let mut next = 1u8;
    for _ in 0..len {
        bytes.push(next)?;
        next = next.wrapping_add(7);
    }
    Ok(bytes)
}

fn hex(heap: Global, bytes: &[u8]) -> Result<String, AllocError> {
    let mut text = String::new(heap);
    for byte in bytes {
        let digits = format!(in heap; "{byte:02x}")?;
        text.push_str(&digits)?;
    }
    Ok(text)
}

// The digest of a message that is absorbed whole.
fn whole(rt: &HostRuntime, bytes: &[u8]) -> io::Result<()> {
    let mut digest = [0u8; 32];
    shake::hash(bytes, &mut digest);
    let text = hex(rt.alloc(), &digest)?;
    let len = bytes.len();
    println!(rt; "{len} bytes: {text}")
}

// The digest of a message that is absorbed in parts.
fn in_parts(rt: &HostRuntime, bytes: &[u8], part: usize) -> io::Result<()>
    requires { 0 < part }
{
    let mut hasher = Shake256::new();
    for bytes in bytes.chunks(part) {
        hasher.absorb(bytes);
    }
    let mut squeezer = hasher.finish();
    let mut digest = [0u8; 32];
    squeezer.squeeze(&mut digest);
    let text = hex(rt.alloc(), &digest)?;
    let len = bytes.len();
    println!(rt; "{len} bytes in parts of {part}: {text}")
}

// Output of `len` bytes.
fn long_output(rt: &HostRuntime, bytes: &[u8], len: usize) -> io::Result<()> {
    let mut out = vec![in rt.alloc(); 0u8; len]?;
    shake::hash(bytes, out.as_mut_slice());
    let text = hex(rt.alloc(), out.as_slice())?;
    println!(rt; "output of {len} bytes: {text}")
}

// A checksum of 300 words of `size` bytes, drawn after `skip` bytes of output.
fn words<F: Fn(&mut Squeezer) -> u32>(
    rt: &HostRuntime,
    bytes: &[u8],
    skip: usize,
    size: &str,
    draw: F,
) -> io::Result<()>
    requires { F.IsAlwaysCallable draw }
{
    let mut hasher = Shake256::new();
    hasher.absorb(bytes);
    let mut squeezer = hasher.finish();
    for _ in 0..skip {
        squeezer.next_byte();
    }
    let mut sum = 0u32;
    for _ in 0..300u32 {
        sum = sum.wrapping_mul(31).wrapping_add(draw(&mut squeezer));
    }
    println!(rt; "words of {size} bytes from {skip}: {sum:08x}")
}

// Two of NIST's known answers: the message of one byte 0f, and that of 200 bytes a3.
fn known_answers(rt: &HostRuntime) -> io::Result<()> {
    whole(rt, &[0x0f])?;
    let bytes = vec![in rt.alloc(); 0xa3u8; 200]?;
    whole(rt, bytes.as_slice())
}

fn main(rt: HostRuntime) -> io::Result<()> {
    known_answers(&rt)?;
    for len in [0usize, 1, 135, 136, 137, 271, 272, 300, 1000, 4000] {
        let bytes = message(rt.alloc(), len)?;
        whole(&rt, bytes.as_slice())?;
    }
    let bytes = message(rt.alloc(), 1000)?;
    for part in [1usize, 7, 8, 135, 136, 137] {
        in_parts(&rt, bytes.as_slice(), part)?;
    }
    for len in [0usize, 1, 136, 137, 600] {
        long_output(&rt, bytes.as_slice(), len)?;
    }
    for skip in [0usize, 1, 2, 3, 134] {
        words(
            &rt,
            bytes.as_slice(),
            skip,
            "two",
            |from| from.next_u16() as u32,
        )?;
        words(&rt, bytes.as_slice(), skip, "four", |from| from.next_u32())?;
    }
    Ok(())
}
