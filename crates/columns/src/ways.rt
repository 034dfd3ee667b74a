// How a column is put together.
ghost use Rattle.std.specs.Prelude.{◌≡◌, ◌<◌, ◌^◌};
ghost use Rattle.columns.specs.Columns.{start_by, put_by};

#[derive(Clone, Copy)]
pub enum Way {
    Least,
    Greatest,
    Count,
}

impl Way {
    // What stands in a column at first.
    pub(crate) fn start(self) -> u32
        ensures { result ≡ start_by self }
    {
        match self {
            Way::Least => u32::MAX,
            Way::Greatest => 0,
            Way::Count => 0,
        }
    }

    // One more, which brings x.
    pub(crate) fn put(self, had: u32, x: u32) -> u32
        requires { put_by self had x < 2 ^ 32 }
        ensures { result ≡ put_by self had x }
    {
        match self {
            Way::Least => had.min(x),
            Way::Greatest => had.max(x),
            Way::Count => had + 1,
        }
    }
}
