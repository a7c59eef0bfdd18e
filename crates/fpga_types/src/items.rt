//! A row of values that contracts see as a list.
ghost use Rattle.std.specs.Prelude.{◌≡◌};

use std::marker::Model;

/// A row of values. Contracts see the list of them, and neither capacity nor allocator.
#[derive(Drop)]
pub struct Items<T> {
    row: Vec<T>,
}

impl<T> Model for Items<T> {
    ghost use Rattle.std.specs.Prelude.{List};

    ghost Value = { List T };

    ghost view = { λ s. s.row.items };
}

impl<T> Items<T> {
    /// The values of a row. Takes no memory.
    pub fn of(row: Vec<T>) -> Items<T>
        ensures { result ≡ row.items }
    {
        Items { row }
    }

    /// The values, lent.
    pub fn as_slice(&self) -> &[T]
        ensures { result.now ≡ self.now }
    {
        self.row.as_slice()
    }

    /// The row back. Takes no memory.
    pub fn into_vec(self) -> Vec<T>
        ensures { result.items ≡ self }
    {
        let Items { row } = self;
        row
    }
}
