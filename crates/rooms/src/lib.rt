// What calls do with lent rooms.

#![tactic(auto)]

ghost use Rattle.std.specs.Prelude.{◌≡◌, ◌+◌, ◌≤◌, length, replicate};
ghost use Rattle.laws.specs.Part.{part_of};

// Makes the whole room zero.
pub fn clear(room: &mut [u32])
    ensures { room.new ≡ replicate (length room.old) 0 }
{
    room.fill(0);
}

// The numbers that stand in a list from a place on, over the whole of a room. It is a loop since the library's copy is C's memmove, a name that the archives for C do without.
pub fn copy(from: usize, read: &[u32], written: &mut [u32])
    requires { from + length written.old ≤ length read.now }
    ensures { written.new ≡ part_of from (length written.old) read.now }
{
    for i in 0..written.len() {
        written[i] = read[from + i];
    }
}
