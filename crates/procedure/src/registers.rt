//! The registers of a machine.

ghost use Rattle.std.specs.Prelude.{◌≡◌, ◌++◌, ◌-◌, ◌≤◌, IfOk, None, length, option_copied, replicate, slice_get, slice_set, unwrap_or, vec_capacity};

use crate::limits::REGISTERS;
use crate::values::Value;
use std::alloc::{AllocError, Allocator};
use std::marker::Model;

/// The registers of a machine, seen by contracts as a cell of each, absent where none was written.
///
/// Those behind the last one written are not kept, and cost nothing. Once a call has ended, the room of
/// its registers may serve a later one.
#[derive(Debug, Drop)]
pub struct Registers<A: Allocator> {
    cells: Vec<Option<Value<A>>, A>,
}

impl<A: Allocator> Model for Registers<A> {
    ghost use Rattle.std.specs.Prelude.{List};
    ghost use Rattle.procedure.specs.Bytes.{Cell};

    ghost Value = { List Cell };

    ghost use Rattle.procedure.specs.Registers.{registers_of, HasRoom};

    ghost view = { registers_of };

    ghost invariant = { HasRoom };
}

/// Absent cells are put behind these, until there are so many.
fn pad<A: Allocator>(cells: &mut Vec<Option<Value<A>>, A>, count: usize)
    requires { count ≤ vec_capacity cells.old }
    ensures items { cells.new.items ≡ cells.old.items ++ replicate (count - length cells.old.items) None }
    ensures room { vec_capacity cells.new ≡ vec_capacity cells.old }
{
    while cells.len() < count {
        cells.push_reserved(None);
    }
}

impl<A: Allocator> Registers<A> {
    /// Registers of which none is written. Room is made for all of them, so that no write needs any.
    pub fn new(alloc: A) -> Result<Self, AllocError>
        ensures { IfOk result (λ r. r ≡ replicate REGISTERS None) }
    {
        Ok(Registers {
            cells: Vec::with_capacity(alloc, REGISTERS)?,
        })
    }

    /// All of them become absent. Their room stays.
    pub fn clear(&mut self)
        ensures { self.new ≡ replicate REGISTERS None }
    {
        self.cells.clear();
    }

    /// What a register holds.
    pub(crate) fn get(&self, register: u8) -> Option<&Value<A>>
        ensures { option_copied result ≡ unwrap_or (slice_get self.now register) None }
    {
        match self.cells.get(usize::from(register)) {
            Some(cell) => cell.as_ref(),
            None => None,
        }
    }

    /// A register takes a cell, if there is such a register.
    pub(crate) fn set(&mut self, register: u8, cell: Option<Value<A>>)
        ensures { self.new ≡ slice_set self.old register cell }
    {
        let index = usize::from(register);
        if index < self.cells.len() {
            self.cells[index] = cell;
        } else if index < REGISTERS {
            pad(&mut self.cells, index);
            self.cells.push_reserved(cell);
        }
    }
}
