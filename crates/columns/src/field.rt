// The fields of a record that stand in a column.
ghost use Rattle.std.specs.Prelude.{◌≡◌};
ghost use Rattle.columns.specs.Columns.{field_of, way_of, kind_of};

use crate::ways::Way;
use records::Shell;

// A field of a shell's record: all of them but the volume.
#[derive(Clone, Copy)]
pub enum Field {
    Low,
    Points,
    Touches,
    LeastX,
    GreatestX,
    LeastY,
    GreatestY,
    LeastZ,
    GreatestZ,
    Triangles,
}

impl Field {
    // All fields, each at its number.
    pub const ALL: [Field; 10] = [
        Field::Low,
        Field::Points,
        Field::Touches,
        Field::LeastX,
        Field::GreatestX,
        Field::LeastY,
        Field::GreatestY,
        Field::LeastZ,
        Field::GreatestZ,
        Field::Triangles,
    ];

    // What a record has there.
    pub fn of(self, s: Shell) -> u32
        ensures { result ≡ field_of (kind_of self) s }
    {
        match self {
            Field::Low => s.low,
            Field::Points => s.points,
            Field::Touches => s.touches,
            Field::LeastX => s.least_x,
            Field::GreatestX => s.greatest_x,
            Field::LeastY => s.least_y,
            Field::GreatestY => s.greatest_y,
            Field::LeastZ => s.least_z,
            Field::GreatestZ => s.greatest_z,
            Field::Triangles => s.triangles,
        }
    }

    // How its column is put together.
    pub(crate) fn way(self) -> Way
        ensures { result ≡ way_of (kind_of self) }
    {
        match self {
            Field::Low | Field::LeastX | Field::LeastY | Field::LeastZ => Way::Least,
            Field::Touches | Field::GreatestX | Field::GreatestY | Field::GreatestZ =>
                Way::Greatest,
            Field::Points | Field::Triangles => Way::Count,
        }
    }
}
