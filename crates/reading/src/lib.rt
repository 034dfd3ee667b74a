// Numbers and rows of numbers read from a place of a text on. A reader answers what it read and the place behind it, or nothing.

#![tactic(auto)]

ghost use Rattle.std.specs.Prelude.{◌+◌, ◌*◌, ◌^◌, ◌≤◌, ◌<◌, ◌≡◌, length, take, drop, IfSome};
ghost use Rattle.lines.specs.Decimal.{is_digit};
ghost use Rattle.lines.specs.Line.{most_fields};
ghost use Rattle.reading.specs.Reading.{most_word, digits_on, read_number, read_field, read_signed_field, read_fields, read_row, read_rows};
ghost use Rattle.grid.specs.Limits.{most_number};
ghost use Rattle.reading.specs.Answers.{Reads, ReadsSigned, answered_line, answered_rows};

use grid::limits::MOST_NUMBER;
use laws::signed::excess;
use lines::end_of;

// The largest number of 32 bits.
pub const MOST_WORD: u64 = 4_294_967_295;

#[tactic(auto, unfolding(lines::specs::Decimal::is_digit))]
fn is_digit(byte: u8) -> bool
    ensures { result ≡ is_digit byte }
{
    byte >= b'0' && byte <= b'9'
}

// Goes on reading digits after those whose number is `first`. A number above a tenth of `most` takes no further digit, and ten times any other with its digit cannot wrap; the one division stands before the loop.
fn read_digits(input: &[u8], from: usize, first: u64, most: u64) -> Option<(u64, usize)>
    requires { (from ≤ length input.now) × (first ≤ most) × (most < 2 ^ 63) }
    ensures { Reads input.now most (digits_on most first (drop from input.now)) result }
{
    let tenth = most / 10;
    let mut value = first;
    for at in from..input.len() {
        let byte = input[at];
        if !is_digit(byte) {
            return Some((value, at));
        }
        let digit = (byte - b'0') as u64;
        if value > tenth {
            return None;
        }
        value = 10 * value + digit;
        if value > most {
            return None;
        }
    }
    Some((value, input.len()))
}

// A number from 0 to `most`, with no sign and no needless zero.
pub fn read_number(input: &[u8], from: usize, most: u64) -> Option<(u64, usize)>
    requires { (9 ≤ most) × (most < 2 ^ 63) }
    ensures { Reads input.now most (read_number most (drop from input.now)) result }
{
    if from >= input.len() {
        return None;
    }
    let byte = input[from];
    if byte == b'0' {
        return Some((0, from + 1));
    }
    if !is_digit(byte) {
        return None;
    }
    let first = (byte - b'0') as u64;
    read_digits(input, from + 1, first, most)
}

// A number and the byte that ends it.
pub fn read_field(input: &[u8], from: usize, most: u64, end: u8) -> Option<(u64, usize)>
    requires { (9 ≤ most) × (most < 2 ^ 63) }
    ensures { Reads input.now most (read_field most end (drop from input.now)) result }
{
    let (value, at) = read_number(input, from, most)?;
    if at >= input.len() {
        return None;
    }
    if input[at] != end {
        return None;
    }
    Some((value, at + 1))
}

// A signed number and the byte that ends it: a minus sign if and only if it is negative.
pub fn read_signed(input: &[u8], from: usize, most: u64, end: u8) -> Option<(i64, usize)>
    requires { (9 ≤ most) × (most < 2 ^ 63) }
    ensures { ReadsSigned input.now most (read_signed_field most end (drop from input.now)) result }
{
    if from >= input.len() {
        return None;
    }
    if input[from] != b'-' {
        let (value, next) = read_field(input, from, most, end)?;
        return Some((value as i64, next));
    }
    let (size, next) = read_field(input, from + 1, most, end)?;
    if size == 0 {
        return None;
    }
    Some((excess(0, size), next))
}

// Reads numbers of 32 bits that have `more` fields after them in their line into the whole room, and answers the place behind them. Where the line is malformed the room may hold the numbers before that.
pub fn read_fields(input: &[u8], from: usize, more: usize, room: &mut [u32]) -> Option<usize>
    requires { (from ≤ length input.now) × (more < most_fields) }
    ensures line { read_fields most_word more (length room.old) (drop from input.now) ≡ answered_line input.now result room.new }
    ensures inside { IfSome result (λ next. next ≤ length input.now) }
{
    let mut at = from;
    let count = room.len();
    for (i, number) in room.iter_mut().enumerate() {
        let (value, next) = read_field(input, at, MOST_WORD, end_of(count - i - 1 + more))?;
        *number = value as u32;
        at = next;
    }
    Some(at)
}

// Reads a line of `count` numbers of 16 bits into the room from `base` on, and answers the place behind it. One function for both widths is no plainer: it would take the bound and a conversion that the bound lets pass.
pub fn read_row(
    input: &[u8],
    from: usize,
    count: usize,
    room: &mut [u16],
    base: usize,
) -> Option<usize>
    requires { base + count ≤ length room.old }
    ensures line { read_row most_number count (drop from input.now) ≡ answered_line input.now result (take count (drop base room.new)) }
    ensures kept { take base room.new ≡ take base room.old }
{
    let mut at = from;
    for i in 0..count {
        let (value, next) = read_field(input, at, MOST_NUMBER, end_of(count - i - 1))?;
        room[base + i] = value as u16;
        at = next;
    }
    Some(at)
}

// Reads `count` lines of `width` numbers to the end of the input into the room; or answers the first malformed line, where the first is line 2.
pub fn read_rows(
    input: &[u8],
    from: usize,
    width: usize,
    count: u32,
    room: &mut [u16],
) -> Result<(), u32>
    requires { (width * count ≤ length room.old) × (count + 2 < 2 ^ 32) }
    ensures { read_rows most_number width count 2 (drop from input.now) ≡ answered_rows result (take (width * count) room.new) }
{
    let mut at = from;
    let mut base = 0;
    for i in 0..count {
        let Some(next) = read_row(input, at, width, room, base) else {
            return Err(i + 2);
        };
        at = next;
        base += width;
    }
    if at < input.len() {
        return Err(count + 2);
    }
    Ok(())
}
