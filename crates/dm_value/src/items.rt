//! Items of slices.

ghost use Rattle.std.specs.Prelude.{◌≡◌, MatchOption, None, Some, slice_get};

/// The item of a number.
pub fn nth<T>(items: &[T], number: usize) -> Option<&T>
    ensures { MatchOption result (slice_get items.now number ≡ None) (λ item. slice_get items.now number ≡ Some item.now) }
{
    items.get(number)
}
