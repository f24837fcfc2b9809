//! The greatest numbers of sessions, and of operations in a session.

/// The most sessions that a history has.
pub const MAX_SESSIONS: usize = 16;

/// The most operations that a session has.
pub const MAX_OPERATIONS: usize = 256;
