// Where each part of the reader's work room begins.
ghost use Rattle.std.specs.Prelude.{◌≡◌, ◌<◌, ◌^◌};
ghost use Rattle.columns.specs.Room.{marks_at, triangles_at, numbers_at, column_at, work_length};

// How many points and triangles the room is for: that says where everything stands in it.
#[derive(Clone, Copy)]
pub struct Parts {
    pub points: usize,
    pub triangles: usize,
}

impl Parts {
    // The marks, a number a point, and the high words of the volumes in their place.
    pub fn marks_at(self) -> usize
        requires { marks_at self.points < 2 ^ 64 }
        ensures { result ≡ marks_at self.points }
    {
        3 * self.points
    }

    // The corners of the triangles.
    pub fn triangles_at(self) -> usize
        requires { triangles_at self.points < 2 ^ 64 }
        ensures { result ≡ triangles_at self.points }
    {
        4 * self.points
    }

    // The shell numbers, one a point.
    pub fn numbers_at(self) -> usize
        requires { numbers_at self.points self.triangles < 2 ^ 64 }
        ensures { result ≡ numbers_at self.points self.triangles }
    {
        4 * self.points + 3 * self.triangles
    }

    // The column, a number a shell.
    pub fn column_at(self) -> usize
        requires { column_at self.points self.triangles < 2 ^ 64 }
        ensures { result ≡ column_at self.points self.triangles }
    {
        5 * self.points + 3 * self.triangles
    }

    // How long the whole room is.
    pub fn work_length(self) -> usize
        requires { work_length self.points self.triangles < 2 ^ 64 }
        ensures { result ≡ work_length self.points self.triangles }
    {
        6 * self.points + 3 * self.triangles
    }
}
