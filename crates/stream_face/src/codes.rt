//! The codes with which streams refuse: those of errno ("The Arrow C Stream Interface", "Error handling").

/// Out of memory.
pub const ENOMEM: i32 = 12;

/// What was read, or given, is none that may be: a record spells no row, or a chunk breaks a rule.
pub const EINVAL: i32 = 22;
