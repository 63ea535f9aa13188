ghost use Rattle.std.specs.Prelude.{◌≡◌, IfOk};

use crate::Memory;
use std::alloc::Global;
use std::marker::Model;
use std::ops::Deref;

/// A box, seen as what it holds, so that what is seen of a value doesn't tell where its parts lie. Types that contain themselves may do so
/// through it.
#[derive(Debug, Drop)]
pub struct Boxed<T> {
    held: Box<T>,
}

impl<T> Model for Boxed<T> {
    ghost Value = { T };

    ghost coded = { T.code };

    ghost view = { λ b. b.held.value };
}

impl<T> Deref for Boxed<T> {
    type Target = T;

    ghost deref_gives = { λ boxed held. held ≡ boxed };

    /// What it holds.
    fn deref(&self) -> &T {
        &self.held
    }
}

impl<T> Boxed<T> {
    /// What it holds, moved out. It takes no memory.
    pub fn into_inner(boxed: Boxed<T>) -> T
        ensures { result ≡ boxed }
    {
        let Boxed { held } = boxed;
        Box::into_inner(held)
    }
}

impl<T: Drop> Boxed<T> {
    /// A box of a value, in the memory that another one lies in.
    pub fn beside(other: &Boxed<T>, value: T) -> Result<Boxed<T>, Memory>
        ensures { IfOk result (λ boxed. boxed ≡ value) }
    {
        Boxed::new(*Box::allocator(&other.held), value)
    }

    /// A box of this value.
    pub fn new(alloc: Global, value: T) -> Result<Boxed<T>, Memory>
        ensures { IfOk result (λ boxed. boxed ≡ value) }
    {
        Ok(Boxed {
            held: Box::new(alloc, value)?,
        })
    }
}
