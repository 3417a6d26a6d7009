// How far a payload reaches.
#![tactic(auto)]

ghost use Rattle.std.specs.Prelude.{◌≡◌};
ghost use Rattle.jxl_reach.specs.Reach.{less, to_end, under};

// To the end of the file, or so many bytes more.
// Not an Option: ToEnd says what a None would leave to a comment, and the tests on it are its methods.
#[derive(Clone, Copy, Debug, PartialEq, Eq)]
pub enum BytesLeft {
    ToEnd,
    Bytes(u64),
}

impl BytesLeft {
    // Whether the payload has fewer than `n` bytes.
    pub fn under(self, n: u64) -> bool
        ensures { result ≡ under n self }
    {
        match self {
            BytesLeft::ToEnd => false,
            BytesLeft::Bytes(m) => m < n,
        }
    }

    // The payload behind its first `n` bytes.
    pub fn less(self, n: u64) -> BytesLeft
        ensures { result ≡ less self n }
    {
        match self {
            BytesLeft::ToEnd => BytesLeft::ToEnd,
            BytesLeft::Bytes(m) => BytesLeft::Bytes(m.saturating_sub(n)),
        }
    }

    // Whether the payload runs to the end of the file.
    pub fn to_end(self) -> bool
        ensures { result ≡ to_end self }
    {
        self == BytesLeft::ToEnd
    }
}
