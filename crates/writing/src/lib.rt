// Numbers and lines of numbers written into a lent room from a place on.

#![tactic(auto)]

ghost use Rattle.std.specs.Prelude.{◌≡◌, ◌++◌, ◌∷◌, [], ◌+◌, ◌*◌, ◌≤◌, ◌<◌, length};
ghost use Rattle.std.proofs.lemmas.List.Edits.{sets};
ghost use Rattle.grid.specs.Limits.{longest_number};
ghost use Rattle.grid.specs.Refusal.{told, granted_or};
ghost use Rattle.lines.specs.Decimal.{decimal, signed};
ghost use Rattle.lines.specs.Line.{longest_field, most_fields, fields, lettered};
ghost use Rattle.writing.specs.Writing.{outcome, refusal_written, HoldsRefusal};

use grid::refusal::Refusal;
use laws::signed;
use lines::end_of;

// How many digits a number has.
pub fn digit_count(n: u64) -> usize
    ensures { result ≡ length (decimal n) }
{
    let mut rest = n;
    let mut count = 1;
    while rest > 9 {
        rest /= 10;
        count += 1;
    }
    count
}

// Writes the digits of a number of which there are `count`, from the last to the first.
fn spell(n: u64, count: usize, room: &mut [u8], at: usize)
    requires { (count ≡ length (decimal n)) × (at + count ≤ length room.old) }
    ensures { room.new ≡ sets room.old at (decimal n) }
{
    let mut rest = n;
    let mut i = count - 1;
    while rest > 9 {
        room[at + i] = b'0' + (rest % 10) as u8;
        rest /= 10;
        i -= 1;
    }
    room[at + i] = b'0' + rest as u8;
}

// Writes a number and the byte that ends it, and answers the place behind them.
pub fn write_field(n: u64, end: u8, room: &mut [u8], at: usize) -> usize
    requires { at + (length (decimal n) + 1) ≤ length room.old }
    ensures place { result ≡ at + (length (decimal n) + 1) }
    ensures text { room.new ≡ sets room.old at (decimal n ++ end ∷ []) }
{
    let count = digit_count(n);
    spell(n, count, room, at);
    room[at + count] = end;
    at + count + 1
}

// How many bytes a signed number takes.
pub fn signed_length(n: i64) -> usize
    ensures length { result ≡ length (signed n) }
    ensures small { result ≤ longest_number }
{
    let count = digit_count(signed::size(n));
    if signed::is_negative(n) {
        return count + 1;
    }
    count
}

// Writes a signed number and the byte that ends it, and answers the place behind them.
pub fn write_signed(n: i64, end: u8, room: &mut [u8], at: usize) -> usize
    requires { at + (length (signed n) + 1) ≤ length room.old }
    ensures place { result ≡ at + (length (signed n) + 1) }
    ensures text { room.new ≡ sets room.old at (signed n ++ end ∷ []) }
{
    if signed::is_negative(n) {
        room[at] = b'-';
        return write_field(signed::size(n), end, room, at + 1);
    }
    write_field(signed::size(n), end, room, at)
}

// Writes numbers that have `more` fields after them in their line, and answers the place behind them.
pub fn write_fields(numbers: &[u32], more: usize, room: &mut [u8], from: usize) -> usize
    requires numbers_in_bounds { from + length (fields more numbers.now) ≤ length room.old }
    requires more_lt_most_fields { more < most_fields }
    ensures place { result ≡ from + length (fields more numbers.now) }
    ensures text { room.new ≡ sets room.old from (fields more numbers.now) }
{
    let mut at = from;
    for (i, x) in numbers.iter().enumerate() {
        let left = numbers.len() - i - 1 + more;
        at = write_field(*x as u64, end_of(left), room, at);
    }
    at
}

// How many bytes numbers take as fields of a line, each with the byte that ends it.
pub fn fields_length(numbers: &[u32]) -> usize
    requires { length numbers.now ≤ most_fields }
    ensures length { result ≡ length (fields 0 numbers.now) }
    ensures small { result ≤ longest_field * length numbers.now }
{
    let mut sum = 0;
    for x in numbers {
        sum += digit_count(*x as u64) + 1;
    }
    sum
}

// Writes a letter and numbers as a line, and answers the place behind it.
pub fn write_lettered(letter: u8, numbers: &[u32], room: &mut [u8], at: usize) -> usize
    requires { at + length (lettered letter numbers.now) ≤ length room.old }
    ensures place { result ≡ at + length (lettered letter numbers.now) }
    ensures text { room.new ≡ sets room.old at (lettered letter numbers.now) }
{
    room[at] = letter;
    room[at + 1] = b'\t';
    write_fields(numbers, 0, room, at + 2)
}

// Writes a refusal's line to the front of the room, and answers its length. A room that is too short is refused, and stays.
pub fn write_refusal(number: u32, line: u32, room: &mut [u8]) -> Result<usize, Refusal>
    ensures holds { HoldsRefusal (length room.old) (told result) }
    ensures text { outcome (told result) (granted_or 0 result) room.new ≡ refusal_written number line room.old }
{
    let numbers = [number, line];
    let length = 2 + fields_length(&numbers);
    if room.len() < length {
        return Err(Refusal::Room);
    }
    write_lettered(b'R', &numbers, room, 0);
    Ok(length)
}
