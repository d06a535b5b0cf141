// The attribute StackMapTable (JVMS §4.7.4).
ghost use Rattle.std.specs.Prelude.{◌≡◌};
ghost use Rattle.cb_classfile.specs.FrameMap.{SpellsDelta, SpellsLocals, SpellsStack, form_of_frame};
ghost use Rattle.cb_classfile.specs.Reading.{Reads};

use crate::MapTypes;
use crate::constants::Constants;
use crate::fault::Fault;
use crate::frame_form::{FrameForm, form_of_frame};
use crate::numbers::{u1_at, u2_at};
use crate::table::{Entry, entries, table};
use cb_plain::List;
use std::alloc::Global;

/// A frame as it stands in the file (JVMS §4.7.4).
#[derive(Debug, Drop)]
pub struct MapFrame {
    /// The kind of frame, which the file calls its `frame_type`.
    pub kind: u8,
    /// The offset delta, also where the kind alone gives it.
    pub delta: u16,
    /// The locals that an append frame adds, or all of a full frame.
    pub locals: MapTypes,
    /// The one stack item of a frame with one, or the whole stack of a full frame.
    pub stack: MapTypes,
}

/// The frames of a method.
pub type Frames = List<MapFrame>;

impl Entry for MapFrame {
    ghost use Rattle.cb_classfile.specs.FrameMap.{SpellsFrame};

    ghost spells = { SpellsFrame };

    fn read<'a>(
        alloc: Global,
        constants: &Constants<'_>,
        bytes: &'a [u8],
    ) -> Result<(MapFrame, &'a [u8]), Fault> {
        let (kind, rest) = u1_at(bytes)?;
        let form = form_of_frame(kind);
        let (delta, rest) = delta_at(form, kind, rest)?;
        let (locals, rest) = locals_at(alloc, constants, form, kind, rest)?;
        let (stack, rest) = stack_at(alloc, constants, form, rest)?;
        let frame = MapFrame {
            kind,
            delta,
            locals,
            stack,
        };
        Ok((frame, rest))
    }
}

/// The delta of a frame, and what stands behind it.
fn delta_at(form: FrameForm, kind: u8, bytes: &[u8]) -> Result<(u16, &[u8]), Fault>
    requires { form ≡ form_of_frame kind }
    ensures { Reads (SpellsDelta form kind) bytes.now result }
{
    match form {
        FrameForm::Same => Ok((u16::from(kind), bytes)),
        FrameForm::SameOneItem => Ok((u16::from(kind - 64), bytes)),
        FrameForm::Reserved => Err(Fault::Malformed),
        _ => {
            let (delta, rest) = u2_at(bytes)?;
            Ok((delta, rest))
        }
    }
}

/// The locals of a frame, and what stands behind them.
fn locals_at<'a>(
    alloc: Global,
    constants: &Constants<'_>,
    form: FrameForm,
    kind: u8,
    bytes: &'a [u8],
) -> Result<(MapTypes, &'a [u8]), Fault>
    requires { form ≡ form_of_frame kind }
    ensures { Reads (SpellsLocals constants.now form kind) bytes.now result }
{
    match form {
        FrameForm::Append => entries(alloc, constants, u16::from(kind - 251), bytes),
        FrameForm::Full => table(alloc, constants, bytes),
        _ => Ok((List::new(alloc), bytes)),
    }
}

/// The stack of a frame, and what stands behind it.
fn stack_at<'a>(
    alloc: Global,
    constants: &Constants<'_>,
    form: FrameForm,
    bytes: &'a [u8],
) -> Result<(MapTypes, &'a [u8]), Fault>
    ensures { Reads (SpellsStack constants.now form) bytes.now result }
{
    match form {
        FrameForm::SameOneItem | FrameForm::SameOneItemExtended => {
            entries(alloc, constants, 1, bytes)
        }
        FrameForm::Full => table(alloc, constants, bytes),
        _ => Ok((List::new(alloc), bytes)),
    }
}
