// The roots of a machine.
ghost use Rattle.std.specs.Prelude.{◌≡◌, IfOk};
ghost use Rattle.cb_frames.specs.Beginning.{beginning};

use crate::RootSizes;
use crate::frame_stack::FrameStack;
use crate::object_tables::ObjectTables;
use cb_plain::{ClassState, OutOfMemory, Value};
use std::alloc::Global;
use std::marker::Model;
use std::mem;

/// The roots of a machine, with the most frames that may stand. Contracts see them as that number and the record of the machine's
/// definitions. They take no memory once they are made, and a call takes the same time for all roots where it doesn't say otherwise.
#[derive(Drop)]
pub struct Roots {
    pub(crate) frames: FrameStack,
    pub(crate) statics: Vec<Value>,
    pub(crate) classes: Vec<ClassState>,
    pub(crate) tables: ObjectTables,
    pub(crate) pending: u64,
    pub(crate) argument: u64,
}

impl Model for Roots {
    ghost use Rattle.std.specs.Prelude.{◌^◌, ◌<◌, length};
    ghost use Rattle.cb_frames.specs.Limited.{Limited};

    ghost Value = { Limited };

    ghost view = { λ roots. record { limit = roots.frames.limit; roots = record { frames = roots.frames.frames; pending = roots.pending; statics = roots.statics.items; classes = roots.classes.items; tables = roots.tables; argument = roots.argument } } };

    ghost invariant = { λ roots. length roots.statics.items < 2 ^ 32 };
}

impl Roots {
    /// Roots of these sizes: no frame stands, every static field holds the int 0, and no class has begun to be initialised. Takes 9 bytes
    /// for each of 64 slots a frame, 48 for each frame, 16 for each static field, 8 for each place of a table and one for each class.
    /// `OutOfMemory` where that room was not to be had.
    pub fn make(alloc: Global, sizes: RootSizes) -> Result<Roots, OutOfMemory>
        ensures { IfOk result (λ roots. roots ≡ beginning sizes) }
    {
        let frames = FrameStack::make(alloc, sizes.frames)?;
        let statics = vec![in alloc; Value::Int(0); sizes.statics as usize]?;
        let classes = vec![in alloc; ClassState::Untouched; sizes.classes as usize]?;
        let tables = ObjectTables::make(alloc, sizes)?;
        Ok(Roots {
            frames,
            statics,
            classes,
            tables,
            pending: 0,
            argument: 0,
        })
    }

    /// Takes the roots out, for a loop that keeps them in local variables. Those that stay behind are empty: they have no frames and room
    /// for none, no static fields, no classes and no places in a table. Takes no memory.
    #[inline(always)]
    pub fn take(&mut self) -> Roots
        ensures { result ≡ self.old }
    {
        let alloc = *self.statics.allocator();
        let none = Roots {
            frames: FrameStack::none(alloc),
            statics: Vec::new(alloc),
            classes: Vec::new(alloc),
            tables: ObjectTables::none(alloc),
            pending: 0,
            argument: 0,
        };
        mem::replace(self, none)
    }
}
