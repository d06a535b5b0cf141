// The names in the record of a class (JVMS §4.1, §4.5, §4.6).
ghost use Rattle.std.specs.Prelude.{◌≡◌, option_copied, option_map};
ghost use Rattle.cb_text.specs.Naming.{class_at, texts_at};

use crate::{ClassFile, Field, Method};
use cb_text::{NameAndType, Pool};

impl ClassFile {
    /// The name of the class itself. A record that was read always has one. Takes constant time.
    pub fn name(&self) -> Option<&[u16]>
        ensures { option_copied result ≡ class_at self.now.pool self.now.this_class }
    {
        self.pool.class(self.this_class)
    }

    /// The name of the superclass. In a record that was read, `java/lang/Object` alone has none. Takes constant time.
    pub fn superclass(&self) -> Option<&[u16]>
        ensures { option_copied result ≡ class_at self.now.pool self.now.super_class }
    {
        self.pool.class(self.super_class)
    }

    /// The name and the descriptor of one of its fields. A record that was read always has them. Takes constant time.
    pub fn field_names(&self, field: &Field) -> Option<NameAndType<'_>>
        ensures { option_map (λ found. (found.name.now, found.descriptor.now)) result
            ≡ texts_at self.now.pool (field.now.name, field.now.descriptor) }
    {
        texts_of(&self.pool, field.name, field.descriptor)
    }

    /// The name and the descriptor of one of its methods. A record that was read always has them. Takes constant time.
    pub fn method_names(&self, method: &Method) -> Option<NameAndType<'_>>
        ensures { option_map (λ found. (found.name.now, found.descriptor.now)) result
            ≡ texts_at self.now.pool (method.now.name, method.now.descriptor) }
    {
        texts_of(&self.pool, method.name, method.descriptor)
    }
}

/// The texts at two indices, if both are there.
fn texts_of(pool: &Pool, name: u16, descriptor: u16) -> Option<NameAndType<'_>>
    ensures { option_map (λ found. (found.name.now, found.descriptor.now)) result
        ≡ texts_at pool.now (name, descriptor) }
{
    let name = pool.text(name)?;
    let descriptor = pool.text(descriptor)?;
    Some(NameAndType { name, descriptor })
}
