//! The limits of the service `store`.

/// Keys that are kept for one origin.
pub const MAX_STORE_KEYS: usize = 256;

/// Bytes of a key.
pub const MAX_STORE_KEY: usize = 64;
