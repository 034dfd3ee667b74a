// The rows of a grid in words, word after word, and which of the edges that leave a sample are crossed.

#![tactic(auto)]

ghost use Rattle.std.specs.Prelude.{◌≡◌, true, cond, ◌<◌, ◌≤◌, length, get_or};
ghost use Rattle.laws.specs.Bits.{word_bits};
ghost use Rattle.grid.specs.Work.{SidesFit};
ghost use Rattle.masks.specs.Masks.{row_words};
ghost use Rattle.rows.specs.Rows.{SidesOf, Ready, Stands, Addable, first_stretch, next_stretch, own_samples, stretch_mask, cubes_mask, CutWords, cuts_at};

use masks::{WORD_CUBES, WORD_SAMPLES};

// The mask of all cubes of a word.
const ALL_CUBES: u64 = 0x7fff_ffff_ffff_ffff;

// The sides of a grid, how many words a row has, the mask of the samples of a row's last word, and how many layers lie below the first whose words and samples are lent.
#[derive(Clone, Copy)]
pub struct Sides {
    pub nx: usize,
    pub ny: usize,
    pub nz: usize,
    pub words: usize,
    pub last: u64,
    pub below: usize,
}

impl Sides {
    // The sides of a grid of which the layers from `below` on are lent.
    pub fn new(nx: usize, ny: usize, nz: usize, below: usize) -> Sides
        requires { 2 ≤ nx }
        ensures { SidesOf nx ny nz below result }
    {
        Sides {
            nx,
            ny,
            nz,
            words: masks::row_words(nx),
            last: masks::last_mask(nx),
            below,
        }
    }
}

// A stretch of a row, which is what one word has of it: how many samples the row has from its first on, its first sample's y and number in the grid, and its word's place among those lent.
#[derive(Clone, Copy)]
pub struct Stretch {
    pub left: usize,
    pub y: usize,
    pub s: usize,
    pub word: usize,
}

// For each axis a word with a bit set where the edge that leaves a sample of a stretch along the axis is crossed.
#[derive(Clone, Copy)]
pub struct Crossed {
    pub x: u64,
    pub y: u64,
    pub z: u64,
}

// Which of the three edges that leave a sample are crossed.
#[derive(Clone, Copy)]
pub struct Cuts {
    pub x: bool,
    pub y: bool,
    pub z: bool,
}

impl Crossed {
    // The crossed edges of one sample of the stretch.
    pub fn cuts(self, i: u32) -> Cuts
        requires { i < word_bits }
        ensures { result ≡ cuts_at self i }
    {
        Cuts {
            x: (self.x >> i) % 2 == 1,
            y: (self.y >> i) % 2 == 1,
            z: (self.z >> i) % 2 == 1,
        }
    }
}

// The first stretch of a layer.
pub fn first(sides: Sides, z: usize) -> Stretch
    requires sides_fit { SidesFit sides.nx sides.ny sides.nz }
    requires words_value { sides.words ≡ row_words sides.nx }
    requires below_le_z { (sides.below ≤ z) × (z < sides.nz) }
    ensures { result ≡ first_stretch sides z }
{
    Stretch {
        left: sides.nx,
        y: 0,
        s: sides.nx * (sides.ny * z),
        word: sides.words * (sides.ny * (z - sides.below)),
    }
}

// The stretch after one: further along its row, or the next row's first. Stretches of one row have a sample in common, which is the later one's own.
pub fn next(sides: Sides, at: Stretch) -> Stretch
    requires { Addable at }
    ensures { result ≡ next_stretch sides at }
{
    if at.left <= WORD_SAMPLES {
        Stretch {
            left: sides.nx,
            y: at.y + 1,
            s: at.s + at.left,
            word: at.word + 1,
        }
    } else {
        Stretch {
            left: at.left - WORD_CUBES,
            y: at.y,
            s: at.s + WORD_CUBES,
            word: at.word + 1,
        }
    }
}

// The mask of a stretch, where `last` is that of a row's last.
fn stretch_mask(last: u64, left: usize) -> u64
    ensures { result ≡ stretch_mask last left }
{
    if left <= WORD_SAMPLES {
        last
    } else {
        ALL_CUBES
    }
}

// The mask of a stretch's cubes, whose first corners are its own samples but for the row's last.
pub fn cubes_mask(sides: Sides, left: usize) -> u64
    ensures { result ≡ cubes_mask sides left }
{
    stretch_mask(sides.last / 2, left)
}

// The word of a neighbouring row, or the row's own where the grid ends, so that an edge which is not there is never crossed.
fn neighbour(there: bool, word: usize, here: u64, masks: &[u64]) -> u64
    requires { there ≡ true → word < length masks.now }
    ensures { result ≡ cond there (get_or masks.now word 0) here }
{
    if there { masks[word] } else { here }
}

// The crossed edges of a stretch's own samples.
pub fn crossed_at(sides: Sides, at: Stretch, z: usize, masks: &[u64]) -> Crossed
    requires ready { Ready sides z masks.now }
    requires stands { Stands sides z at }
    requires y_lt_ny { at.y < sides.ny }
    requires z_lt_nz { z < sides.nz }
    ensures { CutWords sides masks.now at.s (own_samples at.left) result }
{
    let word = at.word;
    let here = masks[word];
    let behind = neighbour(at.y + 1 < sides.ny, word + sides.words, here, masks);
    let over = neighbour(z + 1 < sides.nz, word + sides.words * sides.ny, here, masks);
    let own = stretch_mask(sides.last, at.left);
    Crossed {
        x: (here ^ (here / 2)) & cubes_mask(sides, at.left),
        y: (here ^ behind) & own,
        z: (here ^ over) & own,
    }
}
