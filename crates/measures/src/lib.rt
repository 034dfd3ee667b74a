// What is measured of one triangle: in whole numbers, then in binary64; and vectors of three binary64 numbers.

#![tactic(auto)]

pub mod corners;
pub mod sides;
pub mod vectors;
pub mod whole;
