// The steps of a query: the blocks that are looked at, from the summary and the grey value alone. No function here is given samples.

#![tactic(auto)]

ghost use Rattle.std.specs.Prelude.{◌≡◌, ◌+◌, ◌-◌, ◌^◌, ◌<◌, length};
ghost use Rattle.grid.specs.Limits.{halvings};
ghost use Rattle.summary.specs.Blocks.{summary_length};
ghost use Rattle.summary.specs.Steps.{finds, step_at, looked};
ghost use Rattle.steps.specs.Looks.{BlockFits, half_block, found_words, Marks, found_from, found_in, looked_in};

use grid::limits::{HALVINGS, MOST_ROWS, MOST_SIDE};

// Words of found cubes: bit x of the word of row (y, z), which stands at y + MOST_SIDE z, is set where cube (x, y, z) is found.
pub const FOUND_WORDS: usize = MOST_ROWS;

// Block (x, y, z) of its level, which begins at `start` and has so many blocks a side; it can be halved so many times.
#[derive(Clone, Copy)]
pub struct Block {
    pub halvings: u32,
    pub start: usize,
    pub side: usize,
    pub x: usize,
    pub y: usize,
    pub z: usize,
}

// How many steps were run so far, and what the last one says.
#[derive(Clone, Copy)]
pub struct Stepped {
    pub count: u32,
    pub found: bool,
}

// A block is looked at. This is the one place where the count is raised: the count is that of the steps run.
fn step(count: u32, least: u16, greatest: u16, grey: u16) -> Stepped
    requires { count + 1 < 2 ^ 32 }
    ensures { (result.count ≡ count + 1) × (result.found ≡ finds grey least greatest) }
{
    Stepped {
        count: count + 1,
        found: least < grey && grey <= greatest,
    }
}

// The step at a block, given its two numbers in the summary.
fn step_at(summary: &[u16], grey: u16, block: Block, count: u32) -> Stepped
    requires block_fits { BlockFits block }
    requires summary_len { length summary.now ≡ summary_length }
    requires count_bound { count + 1 < 2 ^ 32 }
    ensures { (result.count ≡ count + 1) × (result.found ≡ step_at summary.now grey block.halvings block.x block.y block.z) }
{
    let place = block.start + 2 * (block.x + block.side * (block.y + block.side * block.z));
    step(count, summary[place], summary[place + 1], grey)
}

// Half h of a block that can be halved.
fn half(block: Block, h: usize) -> Block
    requires block_fits { BlockFits block }
    requires halvings_nonzero { 0 < block.halvings }
    requires h_bound { h < 8 }
    ensures { (result ≡ half_block block h) × BlockFits result }
{
    Block {
        halvings: block.halvings - 1,
        start: 8 * block.start + 2,
        side: 2 * block.side,
        x: 2 * block.x + h % 2,
        y: 2 * block.y + h / 2 % 2,
        z: 2 * block.z + h / 4 % 2,
    }
}

// The eight cubes of a block that was opened are looked at; none of them is opened, so that what a step says goes straight to the cube's bit.
fn look_at_cubes(summary: &[u16], grey: u16, block: Block, count: u32, found: &mut [u64]) -> u32
    requires block_fits { BlockFits block × (block.halvings ≡ 1) }
    requires summary_len { length summary.now ≡ summary_length }
    requires found_len { length found.old ≡ found_words }
    requires count_bound { count + 8 < 2 ^ 32 }
    ensures count { result ≡ count + 8 }
    ensures words { Marks found.old found.new (found_in (step_at summary.now grey) 0 block.x block.y block.z 8) }
{
    let mut run = count;
    for which in 0..8 {
        let cube = half(block, which);
        let step = step_at(summary, grey, cube, run);
        let row = cube.y + MOST_SIDE as usize * cube.z;
        found[row] = found[row] | ((step.found as u64) << cube.x);
        run = step.count;
    }
    run
}

// The eight halves of a block that was opened, which are no cubes, are looked at, and the blocks in those that are opened; the halvings left fall at each call.
fn look_at_halves(summary: &[u16], grey: u16, block: Block, count: u32, found: &mut [u64]) -> u32
    requires block_fits { BlockFits block × (1 < block.halvings) }
    requires summary_len { length summary.now ≡ summary_length }
    requires found_len { length found.old ≡ found_words }
    requires block_bound { count + looked_in (step_at summary.now grey) block < 2 ^ 32 }
    ensures count { result ≡ count + looked_in (step_at summary.now grey) block }
    ensures words { Marks found.old found.new (found_in (step_at summary.now grey) (block.halvings - 1) block.x block.y block.z 8) }
{
    let mut run = count;
    for h in 0..8 {
        let part = half(block, h);
        let step = step_at(summary, grey, part, run);
        run = step.count;
        if step.found {
            if part.halvings == 1 {
                run = look_at_cubes(summary, grey, part, run, found);
            } else {
                run = look_at_halves(summary, grey, part, run, found);
            }
        }
    }
    run
}

// Looks at the whole block, and answers how many blocks were looked at in all.
pub fn look_at_all(summary: &[u16], grey: u16, found: &mut [u64]) -> u32
    requires summary_len { length summary.now ≡ summary_length }
    requires found_len { length found.old ≡ found_words }
    ensures count { result ≡ looked (step_at summary.now grey) halvings 0 0 0 }
    ensures words { Marks found.old found.new (found_from (step_at summary.now grey) halvings 0 0 0) }
{
    let whole = Block {
        halvings: HALVINGS,
        start: 0,
        side: 1,
        x: 0,
        y: 0,
        z: 0,
    };
    let step = step_at(summary, grey, whole, 0);
    if !step.found {
        return step.count;
    }
    look_at_halves(summary, grey, whole, step.count, found)
}
