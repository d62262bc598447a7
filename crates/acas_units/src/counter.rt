//! A counter of one kind of work.
ghost use Rattle.std.specs.Prelude.{◌≡◌, ◌+◌, ◌<◌, ◌^◌};

use std::marker::PhantomData;

/// Counts work of one kind. It starts at 0, and contracts see it as its count. Whoever raises it shows a value of the kind: where only
/// the crate that does the work can make one, no other call raises the count.
#[derive(Drop)]
pub struct Counter<K> {
    count: u64,
    kind: PhantomData<K>,
}

impl<K> std::marker::Model for Counter<K> {
    ghost use Rattle.std.specs.Prelude.{ℕ};

    ghost Value = { ℕ };

    ghost view = { λ c. c.count };
}

impl<K> Counter<K> {
    /// A counter at 0.
    pub fn new() -> Counter<K>
        ensures { result ≡ 0 }
    {
        Counter {
            count: 0,
            kind: PhantomData,
        }
    }

    /// How much was counted.
    pub fn count(&self) -> u64
        ensures { result ≡ self.now }
    {
        self.count
    }

    /// Counts so much work.
    pub fn raise(&mut self, by: u64, _work: &K)
        requires { self.old + by < 2 ^ 64 }
        ensures { self.new ≡ self.old + by }
    {
        self.count += by;
    }
}
