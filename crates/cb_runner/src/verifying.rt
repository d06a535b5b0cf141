// Verifying the program that is run.
ghost use Rattle.std.specs.Prelude.{◌≡◌, ◌<◌, ◌++◌, length, IfErr, IfOk, Some};
ghost use Rattle.cb_classfile.specs.Pool.{text_at};
ghost use Rattle.cb_link.specs.Numbers.{or_none};
ghost use Rattle.cb_runner.specs.Inner.{StopsUntyped};
ghost use Rattle.cb_runner.specs.Messages.{reason_of};
ghost use Rattle.cb_runner.specs.Run.{reason_of_typing};
ghost use Rattle.cb_verify.specs.Typed.{IsTyped};

use crate::Refusal;
use crate::stop::Stop;
use cb_io::text_of;
use cb_link::Program;
use cb_plain::OutOfMemory;
use cb_text::Pool;
use cb_verify::{VerifyFault, verify};
use std::alloc::Global;

/// Verifies a program (JVMS §4.10.1).
pub(crate) fn verify_program(alloc: Global, program: &Program) -> Result<(), Stop>
    ensures typed { IfOk result (λ _. IsTyped program.now) }
    ensures stopped { IfErr result (StopsUntyped program.now) }
{
    match verify(alloc, program) {
        Ok(_typing) => Ok(()),
        Err(VerifyFault::Unverified { method, pc, .. }) => match untyped(
            alloc, program, method, pc,
        ) {
            Ok(refusal) => Err(Stop::refused(alloc, refusal)),
            Err(_) => Err(Stop::OutOfMemory),
        },
        Err(VerifyFault::OutOfMemory) => Err(Stop::OutOfMemory),
    }
}

/// The refusal of a program by a place of a method, with names as they are printed.
fn untyped(alloc: Global, program: &Program, method: u32, pc: u32) -> Result<Refusal, OutOfMemory>
    requires { method < length program.now.methods }
    ensures { IfOk result (λ refusal. reason_of_typing program.now method pc ≡ Some (reason_of refusal)) }
{
    let class = program.class_of(method);
    let declaring = program.class(class as usize);
    let record = program.method(method);
    let text = name_and_descriptor(alloc, &declaring.pool, record.name, record.descriptor)?;
    Ok(Refusal::Unverified {
        class: String::from_str(alloc, program.class_name(class).text())?,
        method: text_of(alloc, text.as_slice())?,
        pc,
    })
}

/// What a name and a descriptor of a pool are as one text, where they are texts.
fn name_and_descriptor(
    alloc: Global,
    pool: &Pool,
    name: u16,
    descriptor: u16,
) -> Result<Vec<u16>, OutOfMemory>
    ensures { IfOk result (λ text. text.items ≡ or_none (text_at pool.now name) ++ or_none (text_at pool.now descriptor)) }
{
    let mut text = Vec::new(alloc);
    text.extend_from_slice(text_or_none(pool, name))?;
    text.extend_from_slice(text_or_none(pool, descriptor))?;
    Ok(text)
}

/// The text at an index, if one stands there.
fn text_or_none(pool: &Pool, index: u16) -> &[u16]
    ensures { result.now ≡ or_none (text_at pool.now index) }
{
    match pool.text(index) {
        Some(text) => text,
        None => &[],
    }
}
