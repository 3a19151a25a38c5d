//! Facts of a signature that are asked for together. Whoever asks for these alone needs no copy of all facts.
//!
//! `single_facts` reads them, and `specs/SingleFacts.antt` says which facts they are.

/// When a signature was created, and what expires when.
#[derive(Clone, Copy)]
pub struct Times {
    /// When it was created, in seconds since 1970.
    pub made: u32,
    /// How many seconds after that it expires, or 0 if it doesn't.
    pub lasts: u32,
    /// How many seconds after the key's creation the key expires by this signature, or 0 if it doesn't.
    pub key_lasts: u32,
}

/// What a certification says of the trust that it gives, and when it was created.
#[derive(Clone, Copy)]
pub struct Terms {
    /// When it was created, in seconds since 1970.
    pub made: u32,
    /// The trust depth.
    pub depth: u8,
    /// The trust amount.
    pub amount: u8,
    /// Whether regular expressions restrict it.
    pub scoped: bool,
}
