// Sizes and limits, the test of the sides, and the leaves of a point's place and mark.

#![tactic(auto)]

ghost use Rattle.std.specs.Prelude.{◌≡◌, ◌<◌};
ghost use Rattle.grid.specs.Sides.{side_fits, sides_fit};
ghost use Rattle.grid.specs.Grid.{is_end};
ghost use Rattle.grid.specs.Point.{offset as offset_of};
ghost use Rattle.grid.specs.Work.{sample_of};

pub mod limits;
pub mod refusal;

use limits::{LEAST_SIDE, MOST_NUMBER, MOST_SIDE, UNIT};

// A sample is below this.
const SAMPLES: u32 = MOST_NUMBER as u32 + 1;

#[tactic(auto, unfolding(crate::specs::Sides::side_fits))]
fn side_fits(side: u32) -> bool
    ensures { result ≡ side_fits side }
{
    LEAST_SIDE <= side && side <= MOST_SIDE
}

// Is each side 2 to 64?
#[tactic(auto, unfolding(crate::specs::Sides::sides_fit))]
pub fn sides_fit(nx: u32, ny: u32, nz: u32) -> bool
    ensures { result ≡ sides_fit nx ny nz }
{
    side_fits(nx) && side_fits(ny) && side_fits(nz)
}

// A kept sample, which is the lowest 16 bits of its number.
pub fn sample_of(number: u32) -> u32
    ensures { result ≡ sample_of number }
{
    number % SAMPLES
}

// How far along a crossed edge its point stands, from the lower end v0 to v1: 0 to 256.
#[tactic(auto, unfolding(crate::specs::Point::offset, laws::specs::Nearest::nearest))]
pub fn offset(v0: u16, v1: u16, grey: u16) -> u32
    requires { v0 ≡ v1 → ⊥ }
    ensures { result ≡ offset_of v0 v1 grey }
{
    let whole = v1.abs_diff(v0) as u32;
    let part = grey.abs_diff(v0) as u32;
    (2 * (UNIT * part) + whole) / (2 * whole)
}

// Is a coordinate the first or the last along its side?
pub fn outermost(c: u32, side: u32) -> bool
    requires { c < side }
    ensures { result ≡ is_end c side }
{
    c == 0 || c + 1 == side
}
