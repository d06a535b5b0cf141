// The attribute StackMapTable (JVMS §4.7.4).
use crate::attribute_names::AttributeNames;
use crate::entry::Entry;
use crate::frame_parts::{are_locals, is_delta, is_stack, push_delta, push_locals, push_stack};
use crate::numbers::push_u1;
use cb_classfile::{MapFrame, form_of_frame};
use cb_plain::OutOfMemory;

impl Entry for MapFrame {
    ghost use Rattle.cb_classfile.specs.FrameMap.{SpellsFrame, frame_bytes};

    ghost spells = { SpellsFrame };

    ghost bytes_of = { λ pool. frame_bytes };

    fn is_formed(&self, names: &AttributeNames<'_>) -> bool {
        let form = form_of_frame(self.kind);
        is_delta(form, self.kind, self.delta)
            && are_locals(names, form, self.kind, self.locals.as_slice())
            && is_stack(names, form, self.stack.as_slice())
    }

    fn push(&self, names: &AttributeNames<'_>, bytes: &mut Vec<u8>) -> Result<(), OutOfMemory> {
        let form = form_of_frame(self.kind);
        push_u1(bytes, self.kind)?;
        push_delta(bytes, form, self.delta)?;
        push_locals(names, bytes, form, self.kind, self.locals.as_slice())?;
        push_stack(names, bytes, form, self.stack.as_slice())
    }
}
