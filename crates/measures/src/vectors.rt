// Vectors of three binary64 numbers, added and scaled by value.
ghost use Rattle.std.specs.Prelude.{◌≡◌, ◌+◌, ◌<◌, length};
ghost use Rattle.grid.specs.Limits.{most_coordinate};
ghost use Rattle.measures.specs.Sizes.{Within};
ghost use Rattle.measures.specs.Vectors.{no_vector, of_side, plus as plusOf, times as timesOf, over as overOf, vector_at, put_vector};

use crate::sides::Side;
use crate::whole;

#[derive(Clone, Copy)]
pub struct Vector {
    pub x: f64,
    pub y: f64,
    pub z: f64,
}

impl Vector {
    pub fn zero() -> Self
        ensures { result ≡ no_vector }
    {
        Vector {
            x: 0.0,
            y: 0.0,
            z: 0.0,
        }
    }

    // A side's three coordinates.
    pub fn of_side(u: Side) -> Self
        requires { Within most_coordinate u }
        ensures { result ≡ of_side u }
    {
        Vector {
            x: whole::float_of(u.x),
            y: whole::float_of(u.y),
            z: whole::float_of(u.z),
        }
    }

    pub fn plus(self, w: Vector) -> Self
        ensures { result ≡ plusOf self w }
    {
        Vector {
            x: self.x + w.x,
            y: self.y + w.y,
            z: self.z + w.z,
        }
    }

    pub fn times(self, k: f64) -> Self
        ensures { result ≡ timesOf k self }
    {
        Vector {
            x: k * self.x,
            y: k * self.y,
            z: k * self.z,
        }
    }

    pub fn over(self, k: f64) -> Self
        ensures { result ≡ overOf self k }
    {
        Vector {
            x: self.x / k,
            y: self.y / k,
            z: self.z / k,
        }
    }
}

// The three numbers of a room from a place on.
pub fn vector_at(room: &[f64], at: usize) -> Vector
    requires { at + 2 < length room.now }
    ensures { result ≡ vector_at room.now at }
{
    Vector {
        x: room[at],
        y: room[at + 1],
        z: room[at + 2],
    }
}

pub fn put_vector(room: &mut [f64], at: usize, v: Vector)
    requires { at + 2 < length room.old }
    ensures { room.new ≡ put_vector room.old at v }
{
    room[at] = v.x;
    room[at + 1] = v.y;
    room[at + 2] = v.z;
}
