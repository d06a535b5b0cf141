// All that may name an object from outside.
ghost use Rattle.std.specs.Prelude.{◌≡◌, ◌<◌, length, slice_get, slice_index, slice_set, Some};
ghost use Rattle.cb_frames.specs.Entries.{entries, without_references};

use crate::Roots;
use crate::frame_references::refers_to;
use cb_plain::Value;

impl Roots {
    /// How many entries the roots have: the slots of the frames that stand, the static fields, the tables, the pending exception and the
    /// array that waits for `main`.
    pub fn reference_count(&self) -> usize
        ensures { result ≡ length (entries self.now.roots) }
    {
        self.frames.size() + self.statics.len() + self.tables.len() + 2
    }

    /// What the entry at a place refers to, 0 where it refers to nothing. For a slot of a frame it takes time in the logarithm of the frames
    /// that stand.
    pub fn reference(&self, i: usize) -> u64
        requires { i < length (entries self.now.roots) }
        ensures { slice_get (entries self.now.roots) i ≡ Some result }
    {
        let frames = self.frames.size();
        if i < frames {
            return self.frames.reference(i);
        }
        let i = i - frames;
        let statics = self.statics.len();
        if i < statics {
            return refers_to(self.statics[i]);
        }
        let i = i - statics;
        let tables = self.tables.len();
        if i < tables {
            return self.tables.reference(i);
        }
        if i == tables {
            self.pending
        } else {
            self.argument
        }
    }

    /// Lets an entry that refers to something refer to something else.
    pub fn set_reference(&mut self, i: usize, to: u64)
        requires { 0 < slice_index (entries self.old.roots) i }
        ensures entry { entries self.new.roots ≡ slice_set (entries self.old.roots) i to }
        ensures rest { without_references self.new.roots ≡ without_references self.old.roots }
        ensures limit { self.new.limit ≡ self.old.limit }
    {
        let frames = self.frames.size();
        if i < frames {
            self.frames.set_reference(i, to);
            return;
        }
        let i = i - frames;
        let statics = self.statics.len();
        if i < statics {
            self.statics[i] = Value::Ref(to);
            return;
        }
        let i = i - statics;
        let tables = self.tables.len();
        if i < tables {
            self.tables.set_reference(i, to);
        } else if i == tables {
            self.pending = to;
        } else {
            self.argument = to;
        }
    }
}
