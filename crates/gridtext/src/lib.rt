// The text of a small grid: line 1, its checks, and the rows of samples.

#![tactic(auto)]

ghost use Rattle.std.specs.Prelude.{◌≡◌, ◌*◌, ◌≤◌, IfErr, length, take, drop};
ghost use Rattle.grid.specs.Limits.{most_small, most_number};
ghost use Rattle.grid.specs.Refusal.{told, grid_line};
ghost use Rattle.reading.specs.Reading.{got, read_rows};
ghost use Rattle.reading.specs.Answers.{answered, answered_rows};
ghost use Rattle.gridtext.specs.Grid.{head_of, read_head, head_number, with_head};
ghost use Rattle.gridtext.specs.Promise.{samples_filled, left, ReadsGrid};

use grid::limits::{MOST_ROUNDS, MOST_SMALL, MOST_WEIGHT};
use grid::refusal::Refusal;
use reading::{read_row, read_rows};

// The numbers of line 1.
#[derive(Clone, Copy)]
pub struct Head {
    pub nx: u32,
    pub ny: u32,
    pub nz: u32,
    pub grey: u16,
    pub rounds: u32,
    pub weight: u32,
}

impl From<[u16; 6]> for Head {
    ghost from_gives = { λ numbers h. h ≡ head_of numbers };

    #[tactic(auto, unfolding(crate::specs::Grid::head_of))]
    fn from(numbers: [u16; 6]) -> Head {
        let [nx, ny, nz, grey, rounds, weight] = numbers;
        Head {
            nx: u32::from(nx),
            ny: u32::from(ny),
            nz: u32::from(nz),
            grey,
            rounds: u32::from(rounds),
            weight: u32::from(weight),
        }
    }
}

// The checks of line 1's numbers, in order. The sides are within their limit before they are multiplied.
#[tactic(auto, unfolding(crate::specs::Grid::head_number, crate::specs::Grid::smoothing_fits))]
fn check_head(head: Head) -> Result<(), Refusal>
    ensures { (told result ≡ head_number head) × IfErr result (λ e. grid_line e ≡ 0) }
{
    if !grid::sides_fit(head.nx, head.ny, head.nz) {
        return Err(Refusal::Side);
    }
    if head.nx * (head.ny * head.nz) > MOST_SMALL {
        return Err(Refusal::Small);
    }
    if head.rounds > MOST_ROUNDS {
        return Err(Refusal::Smoothing);
    }
    if head.weight > MOST_WEIGHT {
        return Err(Refusal::Smoothing);
    }
    Ok(())
}

// Line 1: `G`, and six numbers; and the place behind it.
fn read_head(input: &[u8]) -> Option<(Head, usize)>
    ensures { read_head input.now ≡ answered input.now result }
{
    if input.len() < 2 {
        return None;
    }
    if input[0] != b'G' {
        return None;
    }
    if input[1] != b'\t' {
        return None;
    }
    let mut numbers = [0u16; 6];
    let next = read_row(input, 2, 6, &mut numbers, 0)?;
    Some((Head::from(numbers), next))
}

// Reads the rows, and copies the samples to the room once all rows are known to be well formed; or answers the first malformed line.
fn fill(input: &[u8], from: usize, width: usize, count: u32, samples: &mut [u16]) -> Result<(), u32>
    requires { (width * count ≤ most_small) × (width * count ≤ length samples.old) × (count ≤ most_small) }
    ensures line { read_rows most_number width count 2 (drop from input.now) ≡ answered_rows result (take (width * count) samples.new) }
    ensures room { samples.new ≡ samples_filled (read_rows most_number width count 2 (drop from input.now)) samples.old }
{
    let mut read = [0u16; MOST_SMALL as usize];
    read_rows(input, from, width, count, &mut read)?;
    let many = width * (count as usize);
    samples[..many].copy_from_slice(&read[..many]);
    Ok(())
}

// After line 1, whose numbers passed their checks.
fn read_samples(input: &[u8], from: usize, head: Head, samples: &mut [u16]) -> Result<Head, Refusal>
    requires { head_number head ≡ 0 }
    ensures { left result samples.new ≡ with_head samples.old (got head (drop from input.now)) }
{
    let width = head.nx as usize;
    let count = head.ny * head.nz;
    if samples.len() < width * (count as usize) {
        return Err(Refusal::Room);
    }
    match fill(input, from, width, count, samples) {
        Ok(()) => Ok(head),
        Err(line) => Err(Refusal::GridLine(line)),
    }
}

// Reads the text of a small grid, and answers the numbers of its line 1; its samples go to the front of the room. A refusal leaves the room.
pub fn read_grid(input: &[u8], samples: &mut [u16]) -> Result<Head, Refusal>
    ensures { ReadsGrid input.now samples.old (left result samples.new) }
{
    let Some((head, next)) = read_head(input) else {
        return Err(Refusal::GridLine(1));
    };
    check_head(head)?;
    read_samples(input, next, head, samples)
}
