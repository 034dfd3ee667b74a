// Document 01, "Numbers and sizes": every bound of the base, as specs/Limits.antt has them, here and nowhere else in code.
pub const LEAST_SIDE: u32 = 2;

pub const MOST_SIDE: u32 = 64;

// How often the whole block of a summary, of as many cubes a side, is halved.
pub const HALVINGS: u32 = 6;

// Rows of samples along x.
pub const MOST_ROWS: usize = (MOST_SIDE * MOST_SIDE) as usize;

// The largest number of a grid's text.
pub const MOST_NUMBER: u64 = 65_535;

pub const MOST_POINTS: u32 = 250_000;

pub const MOST_TRIANGLES: u32 = 500_000;

// Units in a voxel.
pub const UNIT: u32 = 256;

// The last sample's coordinate on the longest side, in units.
pub const MOST_COORDINATE: u32 = UNIT * (MOST_SIDE - 1);

// The root's window ends at 2 to this power.
pub const WINDOW_TO: u32 = 60;

// And begins at 2 to this one.
pub const WINDOW_FROM: u32 = WINDOW_TO - 2;

pub const MOST_ROUNDS: u32 = 100;

// The weight with which a point goes all the way to its neighbours' mean.
pub const MOST_WEIGHT: u32 = 256;

// The decimal digits of a number that the program for small grids reads, and of a number of 32 bits; the bytes of a number of 64 bits, twenty digits or a sign and nineteen.
pub const NUMBER_DIGITS: usize = 5;

pub const WORD_DIGITS: usize = 10;

pub const LONGEST_NUMBER: usize = 20;

// Samples that it takes.
pub const MOST_SMALL: u32 = 512;
