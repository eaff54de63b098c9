// What is lent to solve: filled before the call, and looked over after it.

// What cell i is filled with.
pub(crate) fn cell_before(i: usize) -> u64 {
    (i as u64).wrapping_mul(2654435761).wrapping_add(12345)
}

// What output byte i is filled with.
pub(crate) fn byte_before(i: usize) -> u8 {
    (i.wrapping_mul(37).wrapping_add(11) % 256) as u8
}

// Fills what is lent. In place: an array by `from_fn` is copied once more.
pub(crate) fn fill<T: Drop, F: Fn(usize) -> T>(lent: &mut [T], before: F)
    requires { F.IsAlwaysCallable before }
{
    for (i, x) in lent.iter_mut().enumerate() {
        *x = before(i);
    }
}

// Whether everything from a place on is as it was filled.
pub(crate) fn kept<T: PartialEq + Drop, F: Fn(usize) -> T>(
    lent: &[T],
    from: usize,
    before: F,
) -> bool
    requires { F.IsAlwaysCallable before }
{
    lent.iter()
        .enumerate()
        .skip(from)
        .all(|(i, x)| *x == before(i))
}
