// The stages of an attempt. A stage is neither copied nor let go: the call that ends it uses it up.

/// Its nonces are drawn.
pub struct Drawn {
    pub(crate) number: u32,
}

/// Its commitment is opened.
pub struct Committed {
    pub(crate) number: u32,
}
