//! What takes what a run has made, one after another: the images, once they were printed.

use procedure::NoMemory;
use std::alloc::Allocator;

/// What takes values, in order.
pub(crate) trait Sink<T> {
    ghost use Rattle.std.specs.Prelude.{◌++◌, ◌∷◌, [], List, OnOk};

    /// It was given these.
    ghost Has: { Self → List T → Type 0 };

    /// It can take one more.
    ghost HasRoom: { Self → Type 0 };

    /// Makes room for one more.
    fn make_room(&mut self) -> Result<(), NoMemory>
        ensures room { OnOk result (HasRoom self.new) }
        ensures same { (given : List T) → Has self.old given → Has self.new given };

    /// Takes one more.
    fn take(&mut self, value: T)
        requires { HasRoom self.old }
        ensures { (given : List T) → Has self.old given → Has self.new (given ++ value ∷ []) };
}

impl<T: Drop, A: Allocator> Sink<T> for Vec<T, A> {
    ghost use Rattle.std.specs.Prelude.{◌≡◌, ◌≤◌, ◌+◌, vec_capacity, vec_len};

    ghost Has = { λ kept given. kept.items ≡ given };

    ghost HasRoom = { λ kept. vec_len kept + 1 ≤ vec_capacity kept };

    fn make_room(&mut self) -> Result<(), NoMemory> {
        Ok(self.reserve(1)?)
    }

    fn take(&mut self, value: T) {
        self.push_reserved(value)
    }
}

/// Keeps nothing of what it is given.
#[derive(Clone, Copy)]
pub(crate) struct Discard;

impl<T: Drop> Sink<T> for Discard {
    ghost Has = { λ _ _. Unit {0} };

    ghost HasRoom = { λ _. Unit {0} };

    fn make_room(&mut self) -> Result<(), NoMemory> {
        Ok(())
    }

    fn take(&mut self, _value: T) {}
}
