// The constants that a program uses, in the order of its lines.
ghost use Rattle.std.specs.Prelude.{◌≡◌, [], ◌∷◌, ◌++◌, map, Some, IfOk, OnOk};
ghost use Rattle.std.specs.List.{flat_map};
ghost use Rattle.cb_asm_record.specs.Entries.{Class, Text};
ghost use Rattle.cb_asm_record.specs.Inner.{key_entry};
ghost use Rattle.cb_asm_record.specs.Uses.{class_use, code_uses, field_uses, frame_uses, frames_uses, line_uses, method_uses, operand_uses, program_uses, type_uses, value_uses};

use crate::key::{Key, member_key, value_key};
use cb_asm_line::{
    CatchLine, CodeLine, CodeText, FieldText, FrameLine, FrameType, Label, MethodText, Operand,
    Program, Value,
};
use cb_plain::{List, OutOfMemory};
use cb_text::Units;
use std::alloc::Global;
use std::marker::Model;

/// `Code`, the name of the attribute with a method's code (JVMS §4.7.3).
const CODE: &[u16] = &[67, 111, 100, 101];

/// `ConstantValue`, the name of the attribute with a field's value (JVMS §4.7.2).
const CONSTANT_VALUE: &[u16] = &[67, 111, 110, 115, 116, 97, 110, 116, 86, 97, 108, 117, 101];

/// `StackMapTable`, the name of the attribute with a method's frames (JVMS §4.7.4).
const STACK_MAP_TABLE: &[u16] = &[83, 116, 97, 99, 107, 77, 97, 112, 84, 97, 98, 108, 101];

/// Constants in the order in which they are used, as often as they are.
#[derive(Drop)]
pub(crate) struct Uses<'a> {
    keys: Vec<Key<'a>>,
}

impl<'a> Model for Uses<'a> {
    ghost use Rattle.std.specs.Prelude.{List, map};
    ghost use Rattle.cb_asm_record.specs.Entries.{Entry};
    ghost use Rattle.cb_asm_record.specs.Inner.{key_entry};

    ghost Value = { List Entry };

    ghost view = { λ uses. map key_entry uses.keys.items };
}

impl<'a> Uses<'a> {
    /// No constants.
    pub(crate) fn new(alloc: Global) -> Self
        ensures { result ≡ [] }
    {
        Uses {
            keys: Vec::new(alloc),
        }
    }

    /// Adds one at the end.
    pub(crate) fn push(&mut self, key: Key<'a>) -> Result<(), OutOfMemory>
        ensures { OnOk result (self.new ≡ self.old ++ key_entry key.entry ∷ []) }
    {
        self.keys.push(key)?;
        Ok(())
    }

    /// All of them.
    pub(crate) fn as_slice(&self) -> &[Key<'a>]
        ensures { map key_entry result.now ≡ self.now }
    {
        self.keys.as_slice()
    }
}

/// Adds a class.
fn use_class<'a>(uses: &mut Uses<'a>, name: &'a Units) -> Result<(), OutOfMemory>
    ensures { OnOk result (uses.new ≡ uses.old ++ Class name.now ∷ []) }
{
    uses.push(Key::Class(name.as_slice()))
}

/// Adds a text.
fn use_text<'a>(uses: &mut Uses<'a>, text: &'a [u16]) -> Result<(), OutOfMemory>
    ensures { OnOk result (uses.new ≡ uses.old ++ Text text.now ∷ []) }
{
    uses.push(Key::Text(text))
}

/// Adds that of an operand.
fn use_operand<'a>(uses: &mut Uses<'a>, operand: &'a Operand) -> Result<(), OutOfMemory>
    ensures { OnOk result (uses.new ≡ uses.old ++ operand_uses operand.now) }
{
    match operand {
        Operand::Load(value) => uses.push(value_key(value)),
        Operand::Member(member) => uses.push(member_key(member)),
        Operand::Class(name) | Operand::Dimensions(name, _) => use_class(uses, name),
        _ => Ok(()),
    }
}

/// Adds that of a line of code.
fn use_line<'a>(uses: &mut Uses<'a>, line: &'a CodeLine) -> Result<(), OutOfMemory>
    ensures { OnOk result (uses.new ≡ uses.old ++ line_uses line.now) }
{
    match line {
        CodeLine::Here(_) => Ok(()),
        CodeLine::Do(instruction) => use_operand(uses, &instruction.operand),
    }
}

/// Adds those of the lines of code.
fn use_lines<'a>(uses: &mut Uses<'a>, lines: &'a List<CodeLine>) -> Result<(), OutOfMemory>
    ensures { OnOk result (uses.new ≡ uses.old ++ flat_map line_uses lines.now) }
{
    for line in lines.as_slice() {
        use_line(uses, line)?;
    }
    Ok(())
}

/// Adds a class, if there is one.
fn use_optional_class<'a>(uses: &mut Uses<'a>, name: &'a Option<Units>) -> Result<(), OutOfMemory>
    ensures { OnOk result (uses.new ≡ uses.old ++ class_use name.now) }
{
    match name {
        Some(name) => use_class(uses, name),
        None => Ok(()),
    }
}

/// Adds those of an exception table.
fn use_catches<'a>(uses: &mut Uses<'a>, catches: &'a List<CatchLine>) -> Result<(), OutOfMemory>
    ensures { OnOk result (uses.new ≡ uses.old ++ flat_map (λ entry. class_use entry.class) catches.now) }
{
    for entry in catches.as_slice() {
        use_optional_class(uses, &entry.class)?;
    }
    Ok(())
}

/// Adds that of a type in a frame.
fn use_type<'a>(uses: &mut Uses<'a>, kind: &'a FrameType<Label>) -> Result<(), OutOfMemory>
    ensures { OnOk result (uses.new ≡ uses.old ++ type_uses kind.now) }
{
    match kind {
        FrameType::Object(name) => use_class(uses, name),
        _ => Ok(()),
    }
}

/// Adds those of the locals or the stack of a frame.
fn use_types<'a>(uses: &mut Uses<'a>, types: &'a List<FrameType<Label>>) -> Result<(), OutOfMemory>
    ensures { OnOk result (uses.new ≡ uses.old ++ flat_map type_uses types.now) }
{
    for kind in types.as_slice() {
        use_type(uses, kind)?;
    }
    Ok(())
}

/// Adds those of a frame.
fn use_frame<'a>(uses: &mut Uses<'a>, frame: &'a FrameLine) -> Result<(), OutOfMemory>
    ensures { OnOk result (uses.new ≡ uses.old ++ frame_uses frame.now) }
{
    match frame {
        FrameLine::Full(frame) => {
            use_types(uses, &frame.locals)?;
            use_types(uses, &frame.stack)
        }
        FrameLine::Bad => Ok(()),
    }
}

/// Adds those of each frame.
fn use_each_frame<'a>(uses: &mut Uses<'a>, frames: &'a List<FrameLine>) -> Result<(), OutOfMemory>
    ensures { OnOk result (uses.new ≡ uses.old ++ flat_map frame_uses frames.now) }
{
    for frame in frames.as_slice() {
        use_frame(uses, frame)?;
    }
    Ok(())
}

/// Adds those of the frames of a method.
fn use_frames<'a>(uses: &mut Uses<'a>, frames: &'a List<FrameLine>) -> Result<(), OutOfMemory>
    ensures { OnOk result (uses.new ≡ uses.old ++ frames_uses frames.now) }
{
    if frames.is_empty() {
        return Ok(());
    }
    use_text(uses, STACK_MAP_TABLE)?;
    use_each_frame(uses, frames)
}

/// Adds those of the code of a method.
fn use_body<'a>(uses: &mut Uses<'a>, code: &'a CodeText) -> Result<(), OutOfMemory>
    ensures { OnOk result (uses.new ≡ uses.old ++ code_uses (Some code.now)) }
{
    use_text(uses, CODE)?;
    use_lines(uses, &code.lines)?;
    use_catches(uses, &code.catches)?;
    use_frames(uses, &code.frames)
}

/// Adds those of the code of a method, if it has any.
fn use_code<'a>(uses: &mut Uses<'a>, code: &'a Option<CodeText>) -> Result<(), OutOfMemory>
    ensures { OnOk result (uses.new ≡ uses.old ++ code_uses code.now) }
{
    match code {
        Some(code) => use_body(uses, code),
        None => Ok(()),
    }
}

/// Adds those of a field's value, if it has one.
fn use_value<'a>(uses: &mut Uses<'a>, value: &'a Option<Value>) -> Result<(), OutOfMemory>
    ensures { OnOk result (uses.new ≡ uses.old ++ value_uses value.now) }
{
    match value {
        Some(value) => {
            use_text(uses, CONSTANT_VALUE)?;
            uses.push(value_key(value))
        }
        None => Ok(()),
    }
}

/// Adds those of a field.
fn use_field<'a>(uses: &mut Uses<'a>, field: &'a FieldText) -> Result<(), OutOfMemory>
    ensures { OnOk result (uses.new ≡ uses.old ++ field_uses field.now) }
{
    use_text(uses, field.name.as_slice())?;
    use_text(uses, field.descriptor.as_slice())?;
    use_value(uses, &field.value)
}

/// Adds those of the fields.
fn use_fields<'a>(uses: &mut Uses<'a>, fields: &'a List<FieldText>) -> Result<(), OutOfMemory>
    ensures { OnOk result (uses.new ≡ uses.old ++ flat_map field_uses fields.now) }
{
    for field in fields.as_slice() {
        use_field(uses, field)?;
    }
    Ok(())
}

/// Adds those of a method.
fn use_method<'a>(uses: &mut Uses<'a>, method: &'a MethodText) -> Result<(), OutOfMemory>
    ensures { OnOk result (uses.new ≡ uses.old ++ method_uses method.now) }
{
    use_text(uses, method.name.as_slice())?;
    use_text(uses, method.descriptor.as_slice())?;
    use_code(uses, &method.code)
}

/// Adds those of the methods.
fn use_methods<'a>(uses: &mut Uses<'a>, methods: &'a List<MethodText>) -> Result<(), OutOfMemory>
    ensures { OnOk result (uses.new ≡ uses.old ++ flat_map method_uses methods.now) }
{
    for method in methods.as_slice() {
        use_method(uses, method)?;
    }
    Ok(())
}

/// Adds those of the interfaces of a class.
fn use_interfaces<'a>(uses: &mut Uses<'a>, names: &'a List<Units>) -> Result<(), OutOfMemory>
    ensures { OnOk result (uses.new ≡ uses.old ++ map Class names.now) }
{
    for name in names.as_slice() {
        use_class(uses, name)?;
    }
    Ok(())
}

/// The constants that a program uses, in the order of its lines. Takes time in the size of the program.
pub(crate) fn uses_of<'a>(alloc: Global, program: &'a Program) -> Result<Uses<'a>, OutOfMemory>
    ensures { IfOk result (λ uses. uses ≡ program_uses program.now) }
{
    let mut uses = Uses::new(alloc);
    use_class(&mut uses, &program.name)?;
    use_optional_class(&mut uses, &program.superclass)?;
    use_interfaces(&mut uses, &program.interfaces)?;
    use_fields(&mut uses, &program.fields)?;
    use_methods(&mut uses, &program.methods)?;
    Ok(uses)
}
