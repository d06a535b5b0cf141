// Frames of the roots that are entered and left.
ghost use Rattle.std.specs.Prelude.{◌≡◌, ◌<◌, ◌≤◌, ◌+◌, length, is_ok, OnErr, OnOk};
ghost use Rattle.std.specs.List.{flat_map};
ghost use Rattle.cb_plain.specs.Depth.{has_room, slots_of};
ghost use Rattle.cb_frames.specs.Limited.{with_roots};
ghost use Rattle.cb_frames.specs.Tops.{arguments_of, entered, entered_init, left, placed, top_stack, topmost};

use crate::{Deep, Frame, Roots};

impl Roots {
    /// Enters a method with so many local variables and so many words of a stack, at its first place (JVMS §2.6). The topmost values of
    /// the stack that runs are its arguments and go from there into its local variables, a long into two; the others hold the int 0.
    /// `Deep` where there is no room for the frame, which changes nothing. Takes time in the local variables.
    #[inline(always)]
    pub fn enter(
        &mut self,
        method: u32,
        arguments: u32,
        locals: u32,
        stack: u32,
    ) -> Result<(), Deep>
        requires there { arguments ≤ length (top_stack self.old.roots) }
        requires fits { length (flat_map slots_of (arguments_of self.old.roots arguments)) ≤ locals }
        ensures entered { OnOk result (self.new ≡ with_roots self.old (entered self.old.roots method arguments locals stack)) }
        ensures refused { OnErr result (self.new ≡ self.old) }
        ensures deep { is_ok result ≡ has_room self.old.limit self.old.roots.frames (locals + stack) }
    {
        let locals = locals as usize;
        let stack = stack as usize;
        if !self.frames.has_room(locals + stack) {
            return Err(Deep);
        }
        self.frames.enter(method, arguments as usize, locals, stack);
        Ok(())
    }

    /// Begins to initialise a class, at the first place of its initialisation (JVMS §5.5). `Deep` where there is no room for the frame,
    /// which changes nothing.
    pub fn enter_init(&mut self, class: u32) -> Result<(), Deep>
        ensures entered { OnOk result (self.new ≡ with_roots self.old (entered_init self.old.roots class)) }
        ensures refused { OnErr result (self.new ≡ self.old) }
        ensures deep { is_ok result ≡ has_room self.old.limit self.old.roots.frames 0 }
    {
        if !self.frames.has_room(0) {
            return Err(Deep);
        }
        self.frames.enter_init(class);
        Ok(())
    }

    /// Whether a frame of so many slots may be entered (that of an initialisation has none): as often as `make` was told, and all with 64
    /// slots for each (JVMS §2.5.2).
    pub fn has_room(&self, slots: u32) -> bool
        ensures { result ≡ has_room self.now.limit self.now.roots.frames slots }
    {
        self.frames.has_room(slots as usize)
    }

    /// Leaves the topmost frame.
    #[inline(always)]
    pub fn leave(&mut self)
        requires { 0 < length self.old.roots.frames }
        ensures { self.new ≡ with_roots self.old (left self.old.roots) }
    {
        self.frames.leave();
    }

    /// Which frame is the topmost one, `None` where none stands.
    #[inline(always)]
    pub fn top(&self) -> Option<Frame>
        ensures { result ≡ topmost self.now.roots.frames }
    {
        self.frames.top()
    }

    /// Puts the topmost frame at a place of its code, or of its initialisation.
    #[inline(always)]
    pub fn set_place(&mut self, place: u32)
        requires { 0 < length self.old.roots.frames }
        ensures { self.new ≡ with_roots self.old (placed self.old.roots place) }
    {
        self.frames.set_place(place);
    }
}
