//! The numbers that a `for` goes through.

ghost use Rattle.std.specs.Prelude.{◌≡◌, ◌≤ℤ◌, ◌<ℤ◌, ◌+ℤ◌, pos, true, false};

/// The numbers from `next` to `last`.
#[derive(Clone, Copy)]
pub struct Numbers {
    pub next: i64,
    pub last: i64,
}

impl Numbers {
    /// Whether there is none.
    pub fn is_empty(&self) -> bool
        ensures some { result ≡ false → self.now.next ≤ℤ self.now.last }
        ensures none { result ≡ true → self.now.last <ℤ self.now.next }
    {
        self.last < self.next
    }

    /// Whether the next one is the last.
    pub fn is_at_end(&self) -> bool
        ensures more { result ≡ false → ¬ (self.now.next ≡ self.now.last) }
        ensures last { result ≡ true → self.now.next ≡ self.now.last }
    {
        self.next == self.last
    }

    /// The numbers behind the next one.
    pub fn advance(&mut self)
        requires { self.old.next <ℤ self.old.last }
        ensures next { self.new.next ≡ self.old.next +ℤ pos 1 }
        ensures last { self.new.last ≡ self.old.last }
    {
        let Numbers { next, last } = *self;
        prove!(next < last);
        self.next = next + 1;
    }
}
