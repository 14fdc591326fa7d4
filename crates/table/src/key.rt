ghost use Rattle.std.specs.Prelude.{◌≡◌, ℕ, ◌==◌, nat_lt};

// A key with a total order. Its rank is a number that orders keys alike; code compares keys and never makes the number.
// It asks no order of std's: a key may have none, or another, and these two are all that a table needs.
pub trait Rank {
    ghost rank: { Self → ℕ };

    fn same(&self, other: &Self) -> bool
        ensures { result ≡ (rank self.now == rank other.now) };

    fn below(&self, other: &Self) -> bool
        ensures { result ≡ nat_lt (rank self.now) (rank other.now) };
}

// What a table holds. The ghost member is the rank of an entry's key.
pub trait Keyed {
    type Key: Rank + Copy;

    ghost key: { Self → ℕ };

    fn key(&self) -> Self::Key
        ensures { Self.Key.Rank.rank result ≡ key self.now };
}

impl Rank for u16 {
    ghost rank = { λ n. n };

    fn same(&self, other: &u16) -> bool {
        *self == *other
    }

    fn below(&self, other: &u16) -> bool {
        *self < *other
    }
}
