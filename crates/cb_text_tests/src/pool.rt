// Constant pools of class files, as the JVMS and `javap` read them. The pools stand in files beside the program.
use crate::names::push_units;
use cb_rows::{Trouble, bytes_of, number_of};
use cb_text::{Constant, Member, OutOfMemory, Pool, decode_modified, read_pool};
use std::alloc::{AllocError, Global};
use std::fs;

pub(crate) fn tell(
    rt: &HostRuntime,
    told: &mut String,
    table: &str,
    row: &str,
) -> Result<(), Trouble> {
    let alloc = rt.alloc();
    match table {
        "refused" => return tell_refused(alloc, told, row),
        "made" => return tell_made(alloc, told),
        _ => {}
    }
    let (file, index) = row.split_once(' ').unwrap_or((row, ""));
    let bytes = fs::read(rt, file).map_err(|_| Trouble::NotUnderstood)?;
    tell_file(alloc, told, bytes.as_slice(), table, index)
}

/// What there is to tell of the pool of a file.
fn tell_file(
    alloc: Global,
    told: &mut String,
    bytes: &[u8],
    table: &str,
    index: &str,
) -> Result<(), Trouble> {
    if table == "written" {
        return tell_written(alloc, told, bytes);
    }
    let (pool, _) = read(alloc, bytes)?;
    tell_constant(told, &pool, table, number_of(index)?)
}

/// What there is to tell of a constant.
fn tell_constant(told: &mut String, pool: &Pool, table: &str, index: u16) -> Result<(), Trouble> {
    match table {
        "tags" => Ok(write!(told, "{:?}", pool.get(index).map(numbers))?),
        "names" => Ok(push_names(told, pool, index)?),
        "values" => Ok(push_values(told, pool, index)?),
        _ => Err(Trouble::NotUnderstood),
    }
}

/// A pool, and the place behind it.
fn read(alloc: Global, bytes: &[u8]) -> Result<(Pool, usize), Trouble> {
    read_pool(alloc, bytes).map_err(|_| Trouble::Refused)
}

/// The fault of bytes, or how many constants they have.
fn tell_refused(alloc: Global, told: &mut String, row: &str) -> Result<(), Trouble> {
    let bytes = bytes_of(alloc, row)?;
    match read_pool(alloc, bytes.as_slice()) {
        Ok((pool, _)) => write!(told, "{}", pool.len())?,
        Err(fault) => write!(told, "{fault:?}")?,
    }
    Ok(())
}

/// The tag of a constant and its numbers. The number of a text is how many units it has.
fn numbers(constant: &Constant) -> (u8, u64, u16) {
    match constant {
        Constant::Utf8(units) => (1, units.len() as u64, 0),
        Constant::Integer(number) => (3, u64::from(*number), 0),
        Constant::Float(bits) => (4, u64::from(*bits), 0),
        Constant::Long(number) => (5, *number, 0),
        Constant::Double(bits) => (6, *bits, 0),
        Constant::Class(name) => (7, u64::from(*name), 0),
        Constant::String(text) => (8, u64::from(*text), 0),
        Constant::Fieldref(holder, member) => (9, u64::from(*holder), *member),
        Constant::Methodref(holder, member) => (10, u64::from(*holder), *member),
        Constant::InterfaceMethodref(holder, member) => (11, u64::from(*holder), *member),
        Constant::NameAndType(name, descriptor) => (12, u64::from(*name), *descriptor),
        Constant::MethodHandle(kind, reference) => (15, u64::from(*kind), *reference),
        Constant::MethodType(descriptor) => (16, u64::from(*descriptor), 0),
        Constant::InvokeDynamic(bootstrap, member) => (18, u64::from(*bootstrap), *member),
        Constant::Gap => (0, 0, 0),
    }
}

/// The place behind a pool, how many constants it has, whether it is written as it was, and whether it is written so behind other bytes.
fn tell_written(alloc: Global, told: &mut String, bytes: &[u8]) -> Result<(), Trouble> {
    let (pool, end) = read(alloc, bytes)?;
    let mut again = pool.encode(alloc)?;
    write!(told, "{end} {} {}", pool.len(), again.as_slice() == bytes)?;
    pool.encode_into(&mut again)?;
    let behind = again.as_slice().strip_prefix(bytes);
    Ok(write!(told, " {}", behind == Some(bytes))?)
}

/// Adds a text behind a word, where there is one.
fn push_text(told: &mut String, word: &str, text: Option<&[u16]>) -> Result<(), AllocError> {
    match text {
        Some(units) => {
            told.push_str(word)?;
            push_units(told, units)
        }
        None => Ok(()),
    }
}

/// Adds the kind of a member, its class, its name and its descriptor.
fn push_member(told: &mut String, found: Member<'_>) -> Result<(), AllocError> {
    write!(told, "{:?}", found.kind)?;
    push_text(told, " ", Some(found.class))?;
    push_text(told, " ", Some(found.name))?;
    push_text(told, " ", Some(found.descriptor))
}

/// Adds the names that a constant leads to.
fn push_names(told: &mut String, pool: &Pool, index: u16) -> Result<(), AllocError> {
    push_text(told, "text ", pool.text(index))?;
    push_text(told, "class ", pool.class(index))?;
    if let Some(found) = pool.name_and_type(index) {
        push_text(told, "pair ", Some(found.name))?;
        push_text(told, " ", Some(found.descriptor))?;
    }
    if let Some(found) = pool.dynamic(index) {
        push_text(told, "dynamic ", Some(found.name))?;
        push_text(told, " ", Some(found.descriptor))?;
    }
    match pool.member(index) {
        Some(found) => push_member(told, found),
        None => Ok(()),
    }
}

/// Adds the value of a constant, and the kind of a member.
fn push_values(told: &mut String, pool: &Pool, index: u16) -> Result<(), AllocError> {
    if let Some(units) = pool.string(index) {
        write!(told, "string {units:?}")?;
    }
    if let Some(number) = pool.integer(index) {
        write!(told, "integer {number}")?;
    }
    if let Some(number) = pool.long(index) {
        write!(told, "long {number}")?;
    }
    if let Some(bits) = pool.float(index) {
        write!(told, "float {bits:X}")?;
    }
    if let Some(bits) = pool.double(index) {
        write!(told, "double {bits:X}")?;
    }
    if let Some(member) = pool.member(index) {
        write!(told, "member {:?}", member.kind)?;
    }
    Ok(())
}

/// Adds a constant where the pool admits it, and tells its index.
fn add(told: &mut String, pool: &mut Pool, constant: Constant) -> Result<(), OutOfMemory> {
    if !pool.admits(&constant) {
        return told.push_str("none ");
    }
    let index = pool.push(constant)?;
    write!(told, "{index} ")
}

/// Makes a pool of a text, a class of it, a long, a double and others, some of which it doesn't admit.
fn made(alloc: Global, told: &mut String) -> Result<Pool, Trouble> {
    let mut pool = Pool::new(alloc);
    let text = decode_modified(alloc, b"A").map_err(|_| Trouble::Refused)?;
    add(told, &mut pool, Constant::Utf8(text))?;
    for constant in [
        Constant::Class(1),
        Constant::Class(2),
        Constant::Long(5),
        Constant::Gap,
        Constant::MethodHandle(9, 6),
        Constant::MethodHandle(9, 5),
        Constant::Double(0),
        Constant::NameAndType(1, 1),
        Constant::Fieldref(2, 8),
        Constant::Fieldref(8, 2),
    ] {
        add(told, &mut pool, constant)?;
    }
    Ok(pool)
}

/// How many constants of a pool are no more than the second index of another.
fn gaps(pool: &Pool) -> usize {
    let mut gaps = 0_usize;
    for constant in pool {
        if matches!(constant, Constant::Gap) {
            gaps = gaps.saturating_add(1);
        }
    }
    gaps
}

/// The indexes of constants that are added to a pool, and what is told of it.
fn tell_made(alloc: Global, told: &mut String) -> Result<(), Trouble> {
    let pool = made(alloc, told)?;
    write!(
        told,
        "of {} with {} gaps",
        pool.constants().len(),
        gaps(&pool)
    )?;
    let bytes = pool.encode(alloc)?;
    let (again, end) = read(alloc, bytes.as_slice())?;
    write!(
        told,
        ", read {} {}",
        end == bytes.len(),
        again.len() == pool.len()
    )?;
    Ok(push_text(told, " with ", again.class(2))?)
}
