//! Lists without a part of them.

ghost use Rattle.std.specs.Prelude.{◌≡◌, ◌+◌, take, drop};

/// What stands in front of so many items from a place on, and what stands behind them.
pub(crate) fn around<T>(items: &[T], from: usize, count: usize) -> (&[T], &[T])
    ensures front { result.0.now ≡ take from items.now }
    ensures back { result.1.now ≡ drop (from + count) items.now }
{
    let (front, rest) = items.split_at(from.min(items.len()));
    let (_, back) = rest.split_at(count.min(rest.len()));
    (front, back)
}
