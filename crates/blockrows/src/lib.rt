// One row of blocks along x at a time: their least and greatest numbers worked out in local rows, so that several are taken at once, then compared with a list or stored in it. A row is written as a slice: the proof then knows its length.

#![tactic(auto)]

ghost use Rattle.std.specs.Prelude.{◌≡◌, not, ◌+◌, ◌*◌, ◌≤◌, min, max, length, replicate};
ghost use Rattle.std.proofs.lemmas.List.Edits.{sets};
ghost use Rattle.laws.specs.Room.{laid};
ghost use Rattle.laws.specs.Values.{list_to};
ghost use Rattle.grid.specs.Limits.{most_number, most_side};
ghost use Rattle.blockrows.specs.Numbers.{four_of, cube_of, halves_of, same_row, row_numbers};

use grid::limits::{MOST_NUMBER, MOST_SIDE};

// Blocks of the longest row, the single cubes.
pub const ROW: usize = MOST_SIDE as usize;

// Numbers under the longest row of other blocks, two for each of its halves; the samples of a row are fewer.
pub const COLUMNS: usize = 2 * ROW;

// The least and the greatest of the numbers at the same place of four rows of a list: the first, the one so far back along y, the one so far up along z, and the one back from that.
pub fn columns(
    list: &[u16],
    first: usize,
    back: usize,
    up: usize,
    many: usize,
    low: &mut [u16; COLUMNS],
    high: &mut [u16; COLUMNS],
)
    requires many_bound { many ≤ 2 * most_side }
    requires many_in_bounds { first + up + back + many ≤ length list.now }
    ensures low { low.new ≡ laid (list_to many (four_of min list.now first back up)) low.old }
    ensures high { high.new ≡ laid (list_to many (four_of max list.now first back up)) high.old }
{
    let low = &mut low[..];
    let high = &mut high[..];
    let behind = first + back;
    let over = first + up;
    let both = over + back;
    for i in 0..many {
        let a = list[first + i];
        let b = list[behind + i];
        let c = list[over + i];
        let d = list[both + i];
        low[i] = a.min(b).min(c.min(d));
        high[i] = a.max(b).max(c.max(d));
    }
}

// A row of cubes, from the columns of samples on their sides along x.
pub fn cubes(
    many: usize,
    low: &[u16; COLUMNS],
    high: &[u16; COLUMNS],
    least: &mut [u16; ROW],
    greatest: &mut [u16; ROW],
)
    requires { many ≤ most_side }
    ensures least { least.new ≡ laid (list_to many (cube_of min low.now)) least.old }
    ensures greatest { greatest.new ≡ laid (list_to many (cube_of max high.now)) greatest.old }
{
    let least = &mut least[..];
    let greatest = &mut greatest[..];
    for i in 0..many {
        least[i] = low[i].min(low[i + 1]);
        greatest[i] = high[i].max(high[i + 1]);
    }
}

// A row of other blocks, from the columns of their halves' numbers: each half has its least, then its greatest. The cubes' columns stand closer, and have one number each: one loop over both would take the four places as arguments.
pub fn halves(
    many: usize,
    low: &[u16; COLUMNS],
    high: &[u16; COLUMNS],
    least: &mut [u16; ROW],
    greatest: &mut [u16; ROW],
)
    requires { 2 * many ≤ most_side }
    ensures least { least.new ≡ laid (list_to many (halves_of min 0 low.now)) least.old }
    ensures greatest { greatest.new ≡ laid (list_to many (halves_of max 1 high.now)) greatest.old }
{
    let least = &mut least[..];
    let greatest = &mut greatest[..];
    for i in 0..many {
        let from = 4 * i;
        least[i] = low[from].min(low[from + 2]);
        greatest[i] = high[from + 1].max(high[from + 3]);
    }
}

// A row of cubes that are not in the grid.
pub fn outside(least: &mut [u16; ROW], greatest: &mut [u16; ROW])
    ensures least { least.new ≡ replicate most_side most_number }
    ensures greatest { greatest.new ≡ replicate most_side 0 }
{
    least.fill(MOST_NUMBER as u16);
    greatest.fill(0);
}

// Does a row of a list differ from these blocks? Differences are gathered, and tested once.
pub fn differs(
    list: &[u16],
    at: usize,
    many: usize,
    least: &[u16; ROW],
    greatest: &[u16; ROW],
) -> bool
    requires many_le_most_side { many ≤ most_side }
    requires many_in_bounds { at + 2 * many ≤ length list.now }
    ensures { result ≡ not (same_row list.now at many least.now greatest.now) }
{
    let mut apart = 0;
    for i in 0..many {
        let place = at + 2 * i;
        apart = apart | (list[place] ^ least[i]) | (list[place + 1] ^ greatest[i]);
    }
    apart != 0
}

// Stores a row of blocks in a list, two numbers each, the least first.
pub fn store(list: &mut [u16], at: usize, many: usize, least: &[u16; ROW], greatest: &[u16; ROW])
    requires many_le_most_side { many ≤ most_side }
    requires many_in_bounds { at + 2 * many ≤ length list.old }
    ensures { list.new ≡ sets list.old at (row_numbers many least.now greatest.now) }
{
    for i in 0..many {
        let place = at + 2 * i;
        list[place] = least[i];
        list[place + 1] = greatest[i];
    }
}
