//! Parts of lists.
ghost use Rattle.std.specs.Prelude.{◌≡◌, drop, take};
ghost use Rattle.pp_notation.specs.Columns.{between};

use pp_decks::Span;

/// Returns a part of a list, or nothing if there is no such part.
pub fn part<T>(all: &[T], span: Span) -> &[T]
    ensures { result.now ≡ between all.now span.first span.end }
{
    all.get(span.first..span.end).unwrap_or(&[])
}

/// Returns a list up to an index.
pub fn head<T>(all: &[T], end: usize) -> &[T]
    ensures { result.now ≡ take end all.now }
{
    all.get(..end).unwrap_or(all)
}

/// Returns a list from an index on.
pub fn tail<T>(all: &[T], first: usize) -> &[T]
    ensures { result.now ≡ drop first all.now }
{
    all.get(first..).unwrap_or(&[])
}
