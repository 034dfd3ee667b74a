// The scaled whole root of a whole number, found with additions, comparisons and shifts only, so that it can be followed on paper.

#![tactic(auto)]

ghost use Rattle.std.specs.Prelude.{◌^◌, ◌<◌, ◌≡◌};
ghost use Rattle.grid.specs.Limits.{window_to};
ghost use Rattle.root.specs.Root.{scaled};
ghost use Rattle.root.specs.Promise.{InWindow, WholeRoot, Rooted};

use grid::limits::WINDOW_FROM;

// The window's start, and the square of the highest digit's place value.
const WINDOW_START: u64 = 1 << WINDOW_FROM;

// The first step of the scaling: with its halves, down to 1, it makes up any s.
const FIRST_STEP: u32 = 16;

// s and n·4^s.
#[derive(Clone, Copy)]
struct Scaling {
    scale: u32,
    number: u64,
}

// s and r: the scaling, and the whole root of the scaled number.
#[derive(Clone, Copy)]
pub struct Scaled {
    pub scale: u32,
    pub root: u64,
}

// The s with 2^58 ≤ n·4^s < 2^60. Written in base four, where a digit is two binary digits, the number moves up by 16, 8, 4, 2 and 1 digits, each time if it stays below 2^60: if it is below
// 2^58 moved down by as many digits, and up by one.
fn into_window(n: u64) -> Scaling
    requires { (0 < n) × (n < 2 ^ window_to) }
    ensures { InWindow n result.scale × (result.number ≡ scaled n result.scale) }
{
    let mut scale = 0;
    let mut number = n;
    let mut step = FIRST_STEP;
    while step != 0 {
        if number < WINDOW_START >> step >> step << 2 {
            number = number << step << step;
            scale = scale + step;
        }
        step = step >> 1;
    }
    Scaling { scale, number }
}

// The whole root of m, a binary digit a turn, the highest first. With q for the digits found so far and b for the place value of the next one, `square` is q·q, `doubled` is 2·q·b and `place`
// is b·b. `tried` is then (q + b)·(q + b), and the digit is 1 if that is not above m. On paper, for 27 from place 16 on: 16 fits, 36 does not, 25 does, and `doubled` ends as 5.
fn whole_root(m: u64) -> u64
    requires { m < 2 ^ window_to }
    ensures { WholeRoot m result }
{
    let mut square = 0;
    let mut doubled = 0;
    let mut place = WINDOW_START;
    while place != 0 {
        let added = doubled + place;
        let tried = square + added;
        if tried <= m {
            square = tried;
            doubled = added + place;
        }
        doubled = doubled >> 1;
        place = place >> 2;
    }
    doubled
}

// The scaling and the root of a number from 1 to below the window's end.
pub fn root(n: u64) -> Scaled
    requires { (0 < n) × (n < 2 ^ window_to) }
    ensures { Rooted n result.scale result.root }
{
    let brought = into_window(n);
    Scaled {
        scale: brought.scale,
        root: whole_root(brought.number),
    }
}
