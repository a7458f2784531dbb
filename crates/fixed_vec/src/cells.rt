// The array behind a `FixedVec`.
ghost use Rattle.std.specs.Prelude.{◌≡◌, ◌≤◌, length, take};
ghost use Rattle.std.specs.Borrow.{sem};

#[derive(Clone, Copy)]
pub(crate) struct Cells<T, const N: usize> {
    pub(crate) xs: [T; N],
}

impl<T, const N: usize> Cells<T, N> {
    ghost use Rattle.fixed_vec.specs.Cells.{lends_front};

    // The first `len` elements, for writing.
    #[inline]
    pub(crate) fn front_mut(&mut self, len: usize) -> &mut [T]
        requires { len ≤ N }
        ensures* writes_back { sem 𝓛 (lends_front T.row N.row self.entry len result) }
        ensures value { result.now ≡ take len self.old.xs }
        ensures full { length self.old.xs ≡ N }
    {
        &mut self.xs[..len]
    }
}
