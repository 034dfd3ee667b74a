// Definitions and laws that belong to no one part: see specs/ and proofs/. The only code is the leaf operations on signed numbers.

#![tactic(auto)]

// The bits of a machine word.
pub const WORD_BITS: u32 = 64;

pub mod signed;
