// Rows of samples in words of bits, so that a few operations on words say where in a row something is crossed.

#![tactic(auto)]

ghost use Rattle.std.specs.Prelude.{◌≡◌, map, ◌+◌, ◌*◌, ◌-◌, ◌/◌, ◌<◌, ◌≤◌, ◌^◌, leb, length, get_or};
ghost use Rattle.std.proofs.lemmas.List.Edits.{sets};
ghost use Rattle.laws.specs.Bits.{word_bits};
ghost use Rattle.laws.specs.Range.{one_if};
ghost use Rattle.laws.specs.Room.{laid};
ghost use Rattle.grid.specs.Work.{sample_of, lent_samples};
ghost use Rattle.masks.specs.Masks.{word_cubes, row_words, last_samples, Masked, AllSet};
ghost use Rattle.masks.specs.Flags.{most_flagged, flag_bytes, AreFlags, flags_from, four_bytes, flag_mask, gathered, Gathered};

use grid::limits::{MOST_ROWS, MOST_SIDE};
use laws::WORD_BITS;

// Samples that are flagged at a time, and the bytes of their flags: from each of them on a word can be gathered.
const MOST_FLAGGED: usize = 1024;

const FLAG_BYTES: usize = MOST_FLAGGED + WORD_BITS as usize;

const HALF_WORD: usize = WORD_BITS as usize / 2;

const QUARTER_WORD: usize = WORD_BITS as usize / 4;

// Samples of a word, and its cubes along x: the last sample of a word is the next word's first.
pub const WORD_SAMPLES: usize = WORD_BITS as usize;

pub const WORD_CUBES: usize = WORD_SAMPLES - 1;

// The words of a grid with the largest sides.
pub const MOST_WORDS: usize = ((MOST_SIDE as usize - 2) / WORD_CUBES + 1) * MOST_ROWS;

// One, two, three and four bytes up.
const BYTE: u64 = 256;

const TWO_BYTES: u64 = BYTE * BYTE;

const THREE_BYTES: u64 = BYTE * TWO_BYTES;

const FOUR_BYTES: u64 = BYTE * THREE_BYTES;

// Half a byte up.
const HALF_BYTE: u64 = 16;

// 2^24 + 2^17 + 2^10 + 2^3: the product with four flags a byte apart has them side by side from bit 24 on.
const GATHER: u64 = 0x0102_0408;

// 1 if the sample is above, else 0.
fn above_flag(sample: u16, grey: u16) -> u8
    ensures { result ≡ one_if (leb grey sample) }
{
    u8::from(grey <= sample)
}

// The same of a kept sample. It is compared in 32 bits, so that the compiler takes eight at a time. One loop over both kinds is no plainer: it would need a trait of samples, for one line a kind.
fn kept_flag(number: u32, grey: u16) -> u8
    ensures { result ≡ one_if (leb grey (sample_of number)) }
{
    u8::from(grey as u32 <= grid::sample_of(number))
}

// Flags so many kept samples from `start` on, in the front of the flags.
fn flag_kept(kept: &[u32], start: usize, many: usize, grey: u16, flags: &mut [u8])
    requires many_in_bounds { start + many ≤ length kept.now }
    requires many_in_bounds_2 { many ≤ length flags.old }
    ensures { flags.new ≡ laid (flags_from grey (map sample_of kept.now) start many) flags.old }
{
    for i in 0..many {
        flags[i] = kept_flag(kept[start + i], grey);
    }
}

// Flags so many samples from `start` on, in the flags from `at` on: a loop in which the compiler takes sixteen samples at a time.
fn flag_samples(samples: &[u16], start: usize, many: usize, grey: u16, at: usize, flags: &mut [u8])
    requires many_in_bounds { start + many ≤ length samples.now }
    requires many_in_bounds_2 { at + many ≤ length flags.old }
    ensures { flags.new ≡ sets flags.old at (flags_from grey samples.now start many) }
{
    for i in 0..many {
        flags[at + i] = above_flag(samples[start + i], grey);
    }
}

// Flags so many of the samples lent, from `start` on: kept ones, others, or the last kept ones and the others' first.
fn flag_lent(kept: &[u32], samples: &[u16], start: usize, many: usize, grey: u16, flags: &mut [u8])
    requires many_in_bounds { start + many ≤ length (lent_samples kept.now samples.now) }
    requires many_in_bounds_2 { many ≤ length flags.old }
    ensures { flags.new ≡ laid (flags_from grey (lent_samples kept.now samples.now) start many) flags.old }
{
    let end = kept.len();
    if end <= start {
        flag_samples(samples, start - end, many, grey, 0, flags);
        return;
    }
    let here = many.min(end - start);
    flag_kept(kept, start, here, grey, flags);
    flag_samples(samples, 0, many - here, grey, here, flags);
}

// One flag.
fn flag_at(flags: &[u8; FLAG_BYTES], i: usize) -> u64
    requires i_lt_flag_bytes { i < flag_bytes }
    requires are_flags { AreFlags flags.now }
    ensures { (result ≡ get_or flags.now i 0) × (result ≤ 1) }
{
    flags[i] as u64
}

// Four flags as one number; the compiler makes it one read.
fn four_bytes(flags: &[u8; FLAG_BYTES], at: usize) -> u64
    requires at_bound { at + 4 ≤ flag_bytes }
    requires are_flags { AreFlags flags.now }
    ensures { (result ≡ four_bytes flags.now at) × (result < 2 ^ 32) }
{
    let low = flag_at(flags, at) + BYTE * flag_at(flags, at + 1);
    let high = flag_at(flags, at + 2) + BYTE * flag_at(flags, at + 3);
    low + TWO_BYTES * high
}

// The mask of eight flags: the second four are laid half a byte above the first, and one product brings all eight together.
fn eight_mask(flags: &[u8; FLAG_BYTES], at: usize) -> u64
    requires at_bound { at + 8 ≤ flag_bytes }
    requires are_flags { AreFlags flags.now }
    ensures { (result ≡ flag_mask flags.now at 8) × (result < 2 ^ 8) }
{
    let spread = four_bytes(flags, at) + HALF_BYTE * four_bytes(flags, at + 4);
    spread * GATHER / THREE_BYTES % BYTE
}

// The mask of a quarter of a word's flags.
fn quarter_mask(flags: &[u8; FLAG_BYTES], at: usize) -> u64
    requires word_bits_bound { at + word_bits / 4 ≤ flag_bytes }
    requires are_flags { AreFlags flags.now }
    ensures { (result ≡ flag_mask flags.now at (word_bits / 4)) × (result < 2 ^ 16) }
{
    eight_mask(flags, at) + BYTE * eight_mask(flags, at + 8)
}

// The mask of half a word's flags. Quarters are put together side by side, so that none waits for another.
fn half_mask(flags: &[u8; FLAG_BYTES], at: usize) -> u64
    requires word_bits_bound { at + word_bits / 2 ≤ flag_bytes }
    requires are_flags { AreFlags flags.now }
    ensures { (result ≡ flag_mask flags.now at (word_bits / 2)) × (result < 2 ^ 32) }
{
    quarter_mask(flags, at) + TWO_BYTES * quarter_mask(flags, at + QUARTER_WORD)
}

// The mask of so many samples, a word's at most, whose flags stand from `at` on. Its bits past them are flags of other samples.
fn word_mask(flags: &[u8; FLAG_BYTES], at: usize, many: usize) -> u64
    requires at_le_most_flagged { at ≤ most_flagged }
    requires are_flags { AreFlags flags.now }
    ensures { result ≡ flag_mask flags.now at (gathered many) }
{
    if many <= QUARTER_WORD {
        return quarter_mask(flags, at);
    }
    let low = half_mask(flags, at);
    if many <= HALF_WORD {
        return low;
    }
    low + FOUR_BYTES * half_mask(flags, at + HALF_WORD)
}

// The words of a row whose flags stand from `at` on, from a place on. Answers the place after them.
fn mask_row(flags: &[u8; FLAG_BYTES], nx: usize, at: usize, from: usize, masks: &mut [u64]) -> usize
    requires le_nx { (2 ≤ nx) × (at + nx ≤ most_flagged) }
    requires are_flags { AreFlags flags.now }
    requires nx_in_bounds { from + row_words nx ≤ length masks.old }
    ensures value { result ≡ from + row_words nx }
    ensures gathered { Gathered flags.now nx at 1 from masks.old masks.new }
{
    let mut left = nx;
    let mut to = from;
    while WORD_SAMPLES < left {
        masks[to] = word_mask(flags, at + (nx - left), WORD_SAMPLES);
        left -= WORD_CUBES;
        to += 1;
    }
    masks[to] = word_mask(flags, at + (nx - left), left);
    to + 1
}

// The words of so many rows whose flags stand one after the other, from a place on. Answers the place after them.
fn mask_rows(
    flags: &[u8; FLAG_BYTES],
    nx: usize,
    many: usize,
    from: usize,
    masks: &mut [u64],
) -> usize
    requires le_nx { (2 ≤ nx) × (nx * many ≤ most_flagged) }
    requires are_flags { AreFlags flags.now }
    requires many_in_bounds { from + row_words nx * many ≤ length masks.old }
    ensures value { result ≡ from + row_words nx * many }
    ensures gathered { Gathered flags.now nx 0 many from masks.old masks.new }
{
    let mut at = 0;
    let mut to = from;
    for _ in 0..many {
        to = mask_row(flags, nx, at, to, masks);
        at += nx;
    }
    to
}

// The words of all rows of the samples lent. Many rows are flagged before the first of them is gathered: what was stored just before in another width is read late. No range goes by such steps, as many rows as can be flagged and the last time fewer.
pub fn fill(kept: &[u32], samples: &[u16], nx: usize, rows: usize, grey: u16, masks: &mut [u64])
    requires { (2 ≤ nx) × (nx ≤ most_flagged) × (row_words nx * rows ≤ length masks.old) × (length (lent_samples kept.now samples.now) ≡ nx * rows) }
    ensures { Masked nx rows grey (lent_samples kept.now samples.now) masks.new }
{
    let mut flags = [0u8; FLAG_BYTES];
    let most = MOST_FLAGGED / nx;
    let mut r = 0;
    let mut to = 0;
    while r < rows {
        let many = most.min(rows - r);
        flag_lent(kept, samples, nx * r, nx * many, grey, &mut flags);
        to = mask_rows(&flags, nx, many, to, masks);
        r += many;
    }
}

// How many words a row of nx samples has before its last.
fn words_before(nx: usize) -> usize
    requires { 2 ≤ nx }
    ensures { result ≡ (nx - 2) / word_cubes }
{
    (nx - 2) / WORD_CUBES
}

// How many words a row of nx samples has.
pub fn row_words(nx: usize) -> usize
    requires { 2 ≤ nx }
    ensures { result ≡ row_words nx }
{
    words_before(nx) + 1
}

// The mask of the samples of a row's last word.
pub fn last_mask(nx: usize) -> u64
    requires { 2 ≤ nx }
    ensures { AllSet (last_samples nx) result }
{
    full_mask(nx - WORD_CUBES * words_before(nx))
}

// The mask of n samples that are all above.
fn full_mask(n: usize) -> u64
    requires { n ≤ word_bits }
    ensures { AllSet n result }
{
    let mut full = 0;
    for _ in 0..n {
        full = 2 * full + 1;
    }
    full
}
