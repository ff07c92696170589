//! Values with many owners.

ghost use Rattle.std.specs.Prelude.{◌≡◌, IfOk};

use cm_model::NoMemory;
use std::alloc::Global;
use std::marker::Model;
use std::rc::Rc;

/// A value with many owners, that contracts see as the value.
#[derive(Drop)]
pub struct Shared<T> {
    inner: Rc<T>,
}

impl<T> Model for Shared<T> {
    ghost Value = { T };

    ghost coded = { T.code };

    ghost view = { λ s. s.inner.value };
}

impl<T> Shared<T> {
    /// Lends the value.
    pub fn get(&self) -> &T
        ensures value { result.now ≡ self.now }
    {
        &self.inner
    }
}

impl<T: Drop> Shared<T> {
    /// A value that can be shared.
    ///
    /// # Errors
    /// `NoMemory` where memory runs out.
    pub fn new(alloc: Global, value: T) -> Result<Shared<T>, NoMemory>
        ensures value { IfOk result (λ s. s ≡ value) }
    {
        Ok(Shared {
            inner: Rc::new(alloc, value)?,
        })
    }

    /// The same value, with one owner more and no copy of it.
    ///
    /// # Errors
    /// `NoMemory` where it has as many owners as can be counted.
    pub fn share(&self) -> Result<Shared<T>, NoMemory>
        ensures value { IfOk result (λ s. s ≡ self.now) }
    {
        Ok(Shared {
            inner: self.inner.clone()?,
        })
    }
}
