//! What an import took in. The replies to `import` and `load` report it.

/// What an import took in, as the reply reports it.
#[derive(Clone, Copy)]
pub struct Imported {
    /// The parseable keys among the packets.
    pub taken: u64,
    /// The keys that can't be parsed.
    pub skipped: u64,
    /// The keys, components and signatures that are new.
    pub fresh: u64,
}
