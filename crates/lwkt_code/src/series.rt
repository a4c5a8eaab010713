ghost use Rattle.std.specs.Prelude.{◌≡◌, List};

use std::marker::Model;

/// Parts of one kind, in order.
#[derive(Drop)]
pub struct Series<T> {
    items: Vec<T>,
}

impl<T> Model for Series<T> {
    ghost Value = { List T };

    ghost view = { λ p. p.items.items };
}

impl<T> Series<T> {
    /// The parts that are the items of a vector. Takes no memory.
    pub fn from_vec(items: Vec<T>) -> Self
        ensures { result ≡ items.items }
    {
        Series { items }
    }

    /// The parts as a vector. Takes no memory.
    pub fn into_vec(self) -> Vec<T>
        ensures { result.items ≡ self }
    {
        self.items
    }

    /// The parts, the first first.
    pub fn as_slice(&self) -> &[T]
        ensures { result.now ≡ self.now }
    {
        self.items.as_slice()
    }
}
