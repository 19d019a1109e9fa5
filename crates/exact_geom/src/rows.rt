//! A list as a field of a type that contracts compare.

ghost use Rattle.std.specs.Prelude.{◌≡◌};

use std::marker::Model;

/// A `Vec` that a contract sees as the list of its elements, so that a type with such a field can be compared.
#[derive(Debug, Drop)]
pub struct Rows<T> {
    list: Vec<T>,
}

impl<T> Model for Rows<T> {
    ghost use Rattle.std.specs.Prelude.{List};

    ghost Value = { List T };

    ghost view = { λ r. r.list.items };
}

impl<T> Rows<T> {
    /// The rows of a list. It takes no memory.
    pub fn of(list: Vec<T>) -> Rows<T>
        ensures { result ≡ list.items }
    {
        Rows { list }
    }

    /// The rows in order.
    pub fn list(&self) -> &[T]
        ensures { result.now ≡ self.now }
    {
        self.list.as_slice()
    }

    /// The list itself. It takes no memory.
    pub fn into_vec(self) -> Vec<T>
        ensures { result.items ≡ self }
    {
        self.list
    }
}
