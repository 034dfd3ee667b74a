// The program between a reader and a writer: what is read decides what is written. All rooms are local.
ghost use Rattle.std.specs.Prelude.{◌≤◌, ◌≡◌, IfOk, OnOk, IfSome, length, take};
ghost use Rattle.small.specs.Streams.{Answered};

use crate::answer;
use printing::zeros;
use printing::zeros::{MOST_INPUT, MOST_OUTPUT};
use std::io;
use std::io::{Read, Write};

// Reads until the room is full or the input ends, by steps as long as what was read. Answers how many bytes it put at the room's start.
fn read_full<R: Read>(input: &mut R, room: &mut [u8]) -> io::Result<usize>
    ensures inside { IfOk result (λ n. n ≤ length room.new) }
    ensures bytes { IfOk result (λ n. IfSome (R.remaining input.old) (λ given.
        take n room.new ≡ take (length room.old) given)) }
{
    let mut filled = 0;
    while filled < room.len() {
        let count = input.read(&mut room[filled..])?;
        if count == 0 {
            break;
        }
        filled += count;
    }
    Ok(filled)
}

// Reads an input and writes its answer. The answer is that to the whole input, though no more of it is read than decides the answer.
pub fn answer_all<R: Read, W: Write>(input: &mut R, output: &mut W) -> io::Result<()>
    ensures { OnOk result (IfSome (R.remaining input.old) (λ given.
        Answered given (W.contents output.old) (W.contents output.new))) }
{
    let mut room: [u8; MOST_INPUT] = zeros::room(0);
    let filled = read_full(input, &mut room)?;
    let mut text: [u8; MOST_OUTPUT] = zeros::room(0);
    let length = answer::answer(&room[..filled], &mut text);
    output.write_all(&text[..length])
}
