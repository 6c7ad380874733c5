// Bytes in a fixed room. They lie in the value itself, so nothing here can fail: a caller sees to it that there is room.
ghost use Rattle.std.specs.Prelude.{◌≡◌, ◌+◌, ◌≤◌, ◌++◌, [], length, take};

// At most N bytes: the first `len`. What stands behind them is of no account. It is `Copy`, as a type with an `impl Model` is only where the view can be
// undone: so the clauses say `take` themselves.
#[derive(Clone, Copy)]
pub struct Bytes<const N: usize> {
    bytes: [u8; N],
    len: usize,
    ghost fits: { len ≤ N },
}

impl<const N: usize> Bytes<N> {
    pub fn new() -> Self
        ensures { take result.len result.bytes ≡ [] }
    {
        Bytes {
            bytes: [0; N],
            len: 0,
        }
    }

    pub fn as_slice(&self) -> &[u8]
        ensures { (result.now ≡ take self.now.len self.now.bytes) × (length result.now ≤ N) }
    {
        &self.bytes[..self.len]
    }

    // How many bytes more there is room for.
    pub fn room(&self) -> usize
        ensures { result + length (take self.now.len self.now.bytes) ≡ N }
    {
        N - self.len
    }

    // Puts bytes behind those that are held. By a slice of all: lending a part of an array of N bytes has no proof yet.
    pub fn put(&mut self, more: &[u8])
        requires { length (take self.old.len self.old.bytes) + length more.now ≤ N }
        ensures { take self.new.len self.new.bytes ≡ take self.old.len self.old.bytes ++ more.now }
    {
        let end = self.len + more.len();
        let all = &mut self.bytes[..];
        all[self.len..end].copy_from_slice(more);
        self.len = end;
    }

    pub fn clear(&mut self)
        ensures { take self.new.len self.new.bytes ≡ [] }
    {
        self.len = 0;
    }
}
