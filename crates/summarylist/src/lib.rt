// The summary of the samples, built in a lent room, and a lent list compared with it: level by level from the single cubes up, row by row.

#![tactic(auto)]

ghost use Rattle.std.specs.Prelude.{◌≡◌, ◌-◌, ◌^◌, ◌≤◌, ◌<◌, length};
ghost use Rattle.grid.specs.Limits.{halvings, most_side};
ghost use Rattle.grid.specs.Grid.{sample_count};
ghost use Rattle.grid.specs.Work.{size, SidesFit};
ghost use Rattle.summary.specs.Blocks.{level_start, summary_of, summary_length, is_summary};
ghost use Rattle.summarylist.specs.Rows.{RowOf, HalvesOf, LevelFits, Tells, Levelled};

use blockrows::{COLUMNS, ROW};
use grid::limits::HALVINGS;

// The levels of a summary, from the whole block's to the single cubes'.
const LEVELS: u32 = HALVINGS + 1;

// Numbers in a summary, 599,186: two for each block of each level. A level after the last would begin here.
pub const SUMMARY: usize = (2 << (3 * LEVELS)) / 7;

// Where a level begins.
pub fn level_start(level: u32) -> usize
    requires { level ≤ halvings }
    ensures { result ≡ level_start level }
{
    (2usize << (3 * level)) / 7
}

// Row (y, z) of the single cubes. The four rows in which it is worked out are four arrays here and below: where they are fields of one struct, the compiler can't tell them apart, and takes a row of halves one block at a time.
fn cube_row(
    nx: usize,
    ny: usize,
    nz: usize,
    y: usize,
    z: usize,
    samples: &[u16],
    low: &mut [u16; COLUMNS],
    high: &mut [u16; COLUMNS],
    least: &mut [u16; ROW],
    greatest: &mut [u16; ROW],
)
    requires sides_fit { SidesFit nx ny nz }
    requires samples_len { length samples.now ≡ sample_count (size nx ny nz) }
    requires y_lt_most_side { (y < most_side) × (z < most_side) }
    ensures { RowOf (size nx ny nz) samples.now 0 y z most_side least.new greatest.new }
{
    blockrows::outside(least, greatest);
    if y + 1 < ny && z + 1 < nz {
        let first = nx * (y + ny * z);
        blockrows::columns(samples, first, nx, nx * ny, nx, low, high);
        blockrows::cubes(nx - 1, low, high, least, greatest);
    }
}

// Row (y, z) of another level, from the four rows of its blocks' halves.
fn half_row(
    level: u32,
    y: usize,
    z: usize,
    list: &[u16],
    low: &mut [u16; COLUMNS],
    high: &mut [u16; COLUMNS],
    least: &mut [u16; ROW],
    greatest: &mut [u16; ROW],
)
    requires level_lt_halvings { level < halvings }
    requires y_bound { (y < 2 ^ level) × (z < 2 ^ level) }
    requires list_len { length list.now ≡ summary_length }
    ensures { HalvesOf list.now level y z least.new greatest.new }
{
    let side = 1usize << level;
    let back = 4 * side;
    let up = 2 * side * back;
    let first = level_start(level + 1) + 2 * (back * y + up * z);
    blockrows::columns(list, first, back, up, back, low, high);
    blockrows::halves(side, low, high, least, greatest);
}

// Row (y, z) of any level.
fn block_row(
    nx: usize,
    ny: usize,
    nz: usize,
    level: u32,
    y: usize,
    z: usize,
    samples: &[u16],
    list: &[u16],
    low: &mut [u16; COLUMNS],
    high: &mut [u16; COLUMNS],
    least: &mut [u16; ROW],
    greatest: &mut [u16; ROW],
)
    requires level_fits { LevelFits nx ny nz level samples.now list.now }
    requires y_bound { (y < 2 ^ level) × (z < 2 ^ level) }
    ensures { RowOf (size nx ny nz) samples.now (halvings - level) y z (2 ^ level) least.new greatest.new }
{
    if level == HALVINGS {
        cube_row(nx, ny, nz, y, z, samples, low, high, least, greatest);
    } else {
        half_row(level, y, z, list, low, high, least, greatest);
    }
}

// Does a level of a list differ from that of the samples' summary, where the level below it does not?
fn level_differs(nx: usize, ny: usize, nz: usize, level: u32, samples: &[u16], list: &[u16]) -> bool
    requires { LevelFits nx ny nz level samples.now list.now }
    ensures { Tells (size nx ny nz) samples.now list.now level result }
{
    let mut low = [0; COLUMNS];
    let mut high = [0; COLUMNS];
    let mut least = [0; ROW];
    let mut greatest = [0; ROW];
    let side = 1usize << level;
    let start = level_start(level);
    for row in 0..side * side {
        let z = row >> level;
        let y = row - side * z;
        block_row(
            nx,
            ny,
            nz,
            level,
            y,
            z,
            samples,
            list,
            &mut low,
            &mut high,
            &mut least,
            &mut greatest,
        );
        if blockrows::differs(list, start + 2 * side * row, side, &least, &greatest) {
            return true;
        }
    }
    false
}

// Is a list the summary of the samples? A level is compared with its halves in the list itself, once those are known to be right.
pub fn is_summary(nx: usize, ny: usize, nz: usize, samples: &[u16], list: &[u16]) -> bool
    requires sides_fit { SidesFit nx ny nz }
    requires samples_len { length samples.now ≡ sample_count (size nx ny nz) }
    ensures { result ≡ is_summary (size nx ny nz) samples.now list.now }
{
    if list.len() != SUMMARY {
        return false;
    }
    for tested in (0..LEVELS).rev() {
        if level_differs(nx, ny, nz, tested, samples, list) {
            return false;
        }
    }
    true
}

// Writes a level, from the samples or from the level below it. It goes through the rows as `level_differs` does; one walk for both is no plainer: the rows are worked out from the list, which one only reads and the other writes to.
fn build_level(nx: usize, ny: usize, nz: usize, level: u32, samples: &[u16], list: &mut [u16])
    requires { LevelFits nx ny nz level samples.now list.old }
    ensures { Levelled (size nx ny nz) samples.now level list.old list.new }
{
    let mut low = [0; COLUMNS];
    let mut high = [0; COLUMNS];
    let mut least = [0; ROW];
    let mut greatest = [0; ROW];
    let side = 1usize << level;
    let start = level_start(level);
    for row in 0..side * side {
        let z = row >> level;
        let y = row - side * z;
        block_row(
            nx,
            ny,
            nz,
            level,
            y,
            z,
            samples,
            list,
            &mut low,
            &mut high,
            &mut least,
            &mut greatest,
        );
        blockrows::store(list, start + 2 * side * row, side, &least, &greatest);
    }
}

// Writes the summary of the samples over the whole of a room of its length.
pub fn build(nx: usize, ny: usize, nz: usize, samples: &[u16], list: &mut [u16])
    requires sides_fit { SidesFit nx ny nz }
    requires samples_len { length samples.now ≡ sample_count (size nx ny nz) }
    requires list_len { length list.old ≡ summary_length }
    ensures { list.new ≡ summary_of (size nx ny nz) samples.now }
{
    for level in (0..LEVELS).rev() {
        build_level(nx, ny, nz, level, samples, list);
    }
}
