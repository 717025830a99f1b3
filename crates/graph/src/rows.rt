ghost use Rattle.std.specs.Prelude.{◌≡◌, ◌≤◌, ⊤, length};

use std::alloc::AllocError;

// Workers, or edges, in the order of their lines, each with its line's number. An array and its length, for graphs are
// copied, which an `ArrayVec` is not, and never allocate; two arrays, for the items are lent as one slice.
pub struct Rows<T, const N: usize> {
    pub items: [T; N],
    pub lines: [usize; N],
    pub len: usize,
    ghost fits: { len ≤ N },
    ghost long: { (length items ≡ N) × (length lines ≡ N) },
}

impl<T: Copy, const N: usize> Copy for Rows<T, N> {}

// By hand, for over a ghost field `Clone` is derived only where the type is `Copy` for each `T`.
impl<T: Copy, const N: usize> Clone for Rows<T, N> {
    ghost is_clone = { λ rows copy. copy ≡ rows };

    ghost is_infallible = { λ _. ⊤ };

    fn clone(&self) -> Result<Self, AllocError> {
        Ok(*self)
    }
}
