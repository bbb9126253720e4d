// The order of a list.
ghost use Rattle.std.specs.Ordering.{partial_lt};
ghost use Rattle.std.specs.List.{IsAllAdjacentAnswer};
ghost use Rattle.std.specs.Prelude.{◌≡◌};

// Whether each item is less than the next one.
pub fn ascending<T: PartialOrd>(items: &[T]) -> bool
    ensures { IsAllAdjacentAnswer (λ x y b. b ≡ partial_lt T.partial_cmp x y) items.now result }
{
    items.is_sorted_by(|x, y| x < y)
}
