/// A token, by its place in its line.
#[derive(Clone, Copy, Debug, PartialEq, Eq)]
pub struct Token {
    /// The first byte of the token, without its quote.
    pub start: usize,
    /// The byte after the token: its closing quote, where it has one.
    pub end: usize,
    /// Whether the token stands in quotes.
    pub quoted: bool,
    /// Whether the closing quote is there. True of a token without quotes.
    pub closed: bool,
}

impl Token {
    ghost use Rattle.std.specs.Prelude.{◌≡◌, ◌<◌, ◌^◌};
    ghost use Rattle.rv_text.specs.Found.{place_after};

    /// Where the line goes on after the token: after its closing quote, where it has one.
    pub fn after(&self) -> usize
        requires { place_after self.now < 2 ^ 64 }
        ensures { result ≡ place_after self.now }
    {
        if self.quoted && self.closed {
            self.end + 1
        } else {
            self.end
        }
    }
}
