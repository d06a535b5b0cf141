// Frames that are entered and left.
ghost use Rattle.std.specs.Prelude.{◌≡◌, ◌<◌, ◌≤◌, ◌+◌, [], ◌∷◌, drop, length, reverse, take, IsTrue};
ghost use Rattle.std.specs.List.{flat_map};
ghost use Rattle.cb_plain.specs.Depth.{frame_of, has_room, slots_of};
ghost use Rattle.cb_plain.specs.State.{Initialising};
ghost use Rattle.cb_frames.specs.Held.{holding};
ghost use Rattle.cb_frames.specs.Tops.{changed_in, on_top, stack_in, with_stack};

use crate::arguments::{spread, wipe};
use crate::frame_stack::FrameStack;
use crate::standing::{Standing, What};

impl FrameStack {
    /// Enters a method. The topmost values of the stack are its arguments, and are taken from there.
    #[inline(always)]
    pub(crate) fn enter(&mut self, method: u32, arguments: usize, locals: usize, stack: usize)
        requires room { IsTrue (has_room self.old.limit self.old.frames (locals + stack)) }
        requires there { arguments ≤ length (on_top [] stack_in self.old.frames) }
        requires fits { length (flat_map slots_of (reverse (take arguments (on_top [] stack_in self.old.frames)))) ≤ locals }
        ensures { self.new ≡ holding self.old (frame_of method locals stack (reverse (take arguments (on_top [] stack_in self.old.frames))) ∷ changed_in (with_stack (λ stack. drop arguments stack)) self.old.frames) }
    {
        let base = self.top.end;
        let next = self.top.next;
        let first = next - arguments;
        let given = spread(&mut self.slots, first, arguments, base);
        let floor = base + locals;
        wipe(&mut self.slots, given, floor);
        self.top.next = first;
        self.free -= 1;
        self.below[self.free] = self.top;
        self.top = Standing {
            what: What::Method,
            number: method,
            place: 0,
            base,
            floor,
            next: floor,
            end: floor + stack,
        };
    }

    /// Begins to initialise a class.
    pub(crate) fn enter_init(&mut self, class: u32)
        requires { IsTrue (has_room self.old.limit self.old.frames 0) }
        ensures { self.new ≡ holding self.old (Initialising class 0 ∷ self.old.frames) }
    {
        let base = self.top.end;
        self.free -= 1;
        self.below[self.free] = self.top;
        self.top = Standing {
            what: What::Class,
            number: class,
            place: 0,
            base,
            floor: base,
            next: base,
            end: base,
        };
    }

    /// Leaves the topmost frame.
    #[inline(always)]
    pub(crate) fn leave(&mut self)
        requires { 0 < length self.old.frames }
        ensures { self.new ≡ holding self.old (drop 1 self.old.frames) }
    {
        self.top = self.below[self.free];
        self.free += 1;
    }
}
