// The limit of a comparison.
ghost use Rattle.std.specs.Prelude.{◌^◌, ◌<◌};

/// What a shared word is compared with: above 0 and below 2^31.
#[derive(Clone, Copy)]
pub struct Limit {
    pub value: u32,
    ghost some: { 0 < value },
    ghost small: { value < 2 ^ 31 },
}
