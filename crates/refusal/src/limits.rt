// The limits of the table of refusals.

// The most bytes of a text that a call leaves; output and scratch have room for as many.
pub const TEXT_MAX: usize = 49152;

// The most bytes of a message, a policy or a payload.
pub const INPUT_MAX: usize = 32768;

// The most segments and leaves of a message, and the most rules of a policy.
pub const SEGMENTS_MAX: usize = 256;

pub const LEAVES_MAX: usize = 4096;

pub const RULES_MAX: usize = 128;

// The most learnt values, and the most bytes of them.
pub const LEARNT_MAX: usize = 512;

pub const LEARNT_BYTES_MAX: usize = 16384;
