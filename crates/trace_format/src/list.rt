//! Owned lists that contracts see as lists.
ghost use Rattle.std.specs.Prelude.{◌≡◌};

use std::marker::Model;

/// A list of values, as contracts see it.
#[derive(Debug, Drop)]
pub struct Series<T> {
    values: Vec<T>,
}

impl<T> Model for Series<T> {
    ghost use Rattle.std.specs.Prelude.{List};

    ghost Value = { List T };

    ghost view = { λ s. s.values.items };
}

impl<T> Series<T> {
    /// The values of a vector. It takes no memory.
    pub fn from_vec(values: Vec<T>) -> Self
        ensures { result ≡ values.items }
    {
        Series { values }
    }

    /// The values as a slice.
    pub fn as_slice(&self) -> &[T]
        ensures { result.now ≡ self.now }
    {
        self.values.as_slice()
    }

    /// The values as a vector. It takes no memory.
    pub fn into_vec(self) -> Vec<T>
        ensures { result.items ≡ self }
    {
        self.values
    }
}
