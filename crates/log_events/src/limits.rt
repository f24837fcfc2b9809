//! The limits of a log.

/// The most events that a log has. So the marks of its history fit 32 bits.
pub const MAX_EVENTS: u32 = 2_147_483_647;

/// The greatest number of a client or of a key. So the variables of its history fit 32 bits.
pub const MAX_NAME: u32 = 2_147_483_647;
