//! Parts of texts.
ghost use Rattle.std.specs.Prelude.{◌≡◌};
ghost use Rattle.pp_notation.specs.Columns.{between};

/// Bytes of a text, as of a source, of all lines or of a line: the first one, from 0, and the one after the last.
#[derive(Clone, Copy, Default)]
pub struct Span {
    pub first: usize,
    pub end: usize,
}

impl Span {
    pub fn new(first: usize, end: usize) -> Self {
        Span { first, end }
    }

    /// Returns the span without bytes.
    pub fn none() -> Self {
        Span::default()
    }

    pub fn is_empty(self) -> bool {
        self.end <= self.first
    }

    /// Returns the bytes, of all.
    pub fn of(self, all: &[u8]) -> &[u8]
        ensures { result.now ≡ between all.now self.first self.end }
    {
        all.get(self.first..self.end).unwrap_or(b"")
    }

    /// Returns a part of it, from a byte to before another one.
    pub fn part(self, first: usize, end: usize) -> Self {
        let place = |at: usize| self.first.saturating_add(at);
        Span::new(place(first), place(end))
    }
}
