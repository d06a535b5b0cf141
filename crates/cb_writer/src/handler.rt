// The exception table (JVMS §4.7.3).
use crate::attribute_names::AttributeNames;
use crate::entry::Entry;
use crate::numbers::{push_triple, push_u2};
use cb_classfile::Handler;
use cb_plain::OutOfMemory;

impl Entry for Handler {
    ghost use Rattle.cb_classfile.specs.Code.{SpellsHandler, handler_bytes};

    ghost spells = { SpellsHandler };

    ghost bytes_of = { λ pool. handler_bytes };

    fn is_formed(&self, names: &AttributeNames<'_>) -> bool {
        // Numbers that are read are known to fit their bytes.
        let _start = self.start;
        let _end = self.end;
        let _handler = self.handler;
        self.catch_type == 0 || names.is_class(self.catch_type)
    }

    fn push(&self, _: &AttributeNames<'_>, bytes: &mut Vec<u8>) -> Result<(), OutOfMemory> {
        push_triple(bytes, self.start, self.end, self.handler)?;
        push_u2(bytes, self.catch_type)
    }
}
