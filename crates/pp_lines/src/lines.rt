//! Cuts bytes into lines.
ghost use Rattle.std.specs.Prelude.{◌≡◌, ◌≢◌, ◌<◌, ◌==◌, ◌∷◌, ◌++◌, [], ℕ, List, length, position, IfSome, MatchOption};
ghost use Rattle.pp_lines.specs.LineCutter.{IsPrefixOf};
ghost use Rattle.pp_lines.specs.Lines.{finished, without_return};

use arrayvec::ArrayVec;
use std::marker::Model;

/// The byte that ends a line.
pub const LINE_FEED: u8 = b'\n';

/// The first `KEPT` bytes of the current line, which no line feed has ended yet. Further bytes are
/// dropped, so a long line needs no more memory.
#[derive(Drop)]
pub struct LineCutter<const KEPT: usize> {
    front: ArrayVec<u8, KEPT>,
}

impl<const KEPT: usize> Model for LineCutter<KEPT> {
    ghost Value = { List ℕ };

    ghost view = { λ cutter. cutter.front.items };
}

#[tactic(auto, using(crate::proofs::Fronts::kept_prefixes))]
impl<const KEPT: usize> LineCutter<KEPT> {
    /// Returns a cutter before the first byte of a line.
    pub fn new() -> Self
        ensures { result ≡ [] }
    {
        LineCutter {
            front: ArrayVec::new(),
        }
    }

    /// Adds a byte, which is no line feed, to the line.
    pub fn take_byte(&mut self, byte: u8)
        requires { byte ≢ 10 }
        ensures { (bytes : List ℕ) →
            IsPrefixOf KEPT self.old bytes → IsPrefixOf KEPT self.new (bytes ++ byte ∷ []) }
    {
        if !self.front.is_full() {
            self.front.push(byte);
        }
    }

    /// Adds bytes to the line.
    pub fn take_text(&mut self, text: &[u8])
        requires { finished text.now ≡ [] }
        ensures { (bytes : List ℕ) →
            IsPrefixOf KEPT self.old bytes → IsPrefixOf KEPT self.new (bytes ++ text.now) }
    {
        let kept = text.len().min(self.front.remaining_capacity());
        let _ = self.front.try_extend_from_slice(&text[..kept]);
    }

    /// Ends the line with a line feed.
    pub fn end_line(&mut self)
        ensures empty { self.new ≡ [] }
        ensures front { (bytes : List ℕ) → IsPrefixOf KEPT self.new (bytes ++ 10 ∷ []) }
    {
        self.front.clear();
    }

    /// Returns the kept prefix of the line.
    pub fn line(&self) -> &[u8]
        ensures { result.now ≡ self.now }
    {
        self.front.as_slice()
    }
}

/// Returns the position of the first line feed.
fn first_feed(text: &[u8]) -> Option<usize>
    ensures value { result ≡ position (λ byte. byte == 10) text.now }
    ensures within { IfSome result (λ feed. feed < length text.now) }
{
    text.iter().position(|byte| *byte == LINE_FEED)
}

/// Returns the bytes before the first line feed and those after it, or `None` if there is no line feed.
#[tactic(auto, using(crate::proofs::OpenTexts::feed_cuts))]
pub fn next_line(text: &[u8]) -> Option<(&[u8], &[u8])>
    ensures cut { MatchOption result (finished text.now ≡ [])
        (λ cut. (text.now ≡ cut.0.now ++ 10 ∷ cut.1.now) × (finished cut.0.now ≡ [])) }
    ensures shorter { IfSome result (λ cut. length cut.1.now < length text.now) }
{
    let (line, rest) = text.split_at(first_feed(text)?);
    Some((line, &rest[1..]))
}

/// Returns the line without one carriage return at its end.
pub fn without_return(line: &[u8]) -> &[u8]
    ensures { result.now ≡ without_return line.now }
{
    match line {
        [front @ .., b'\r'] => front,
        _ => line,
    }
}
