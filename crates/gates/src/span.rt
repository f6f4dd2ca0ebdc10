ghost use Rattle.std.specs.Prelude.{◌≡◌, ◌+◌, ◌≤◌, length};
ghost use Rattle.gates.specs.inner.Spans.{within};

/// Where words stand in a vector: from a place on, so many of them.
#[derive(Clone, Copy, Drop, Debug)]
pub(crate) struct Span {
    pub place: usize,
    pub len: usize,
}

impl Span {
    /// The words that stand there.
    pub fn of(self, words: &[u64]) -> &[u64]
        requires { self.place + self.len ≤ length words.now }
        ensures { result.now ≡ within words.now self }
    {
        &words[self.place..self.place + self.len]
    }
}
