//! How far a line is indented.
ghost use Rattle.std.specs.Prelude.{◌≡◌};
ghost use Rattle.sspi_explain.specs.Page;

/// How many levels of a message enclose a line.
#[derive(Clone, Copy)]
pub(crate) enum Depth {
    One,
    Two,
    Three,
}

impl Depth {
    /// One level deeper.
    pub fn deeper(self) -> Depth
        ensures { result ≡ Page.deeper self }
    {
        match self {
            Depth::One => Depth::Two,
            Depth::Two | Depth::Three => Depth::Three,
        }
    }

    /// The blanks that a line of this depth begins with.
    pub fn blanks(self) -> &'static str
        ensures { result.now ≡ Page.blanks self }
    {
        match self {
            Depth::One => "  ",
            Depth::Two => "    ",
            Depth::Three => "      ",
        }
    }
}
