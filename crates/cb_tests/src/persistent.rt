// Arrays and stacks of numbers, with ample memory.
use cb_persistent::{PersistentArray, PersistentStack};
use cb_rows::{Trouble, number_of};
use std::alloc::{AllocError, Global};

pub(crate) fn tell(
    alloc: Global,
    told: &mut String,
    table: &str,
    row: &str,
) -> Result<(), Trouble> {
    match table {
        "change" => tell_change(alloc, told, row),
        "filled" => tell_filled(alloc, told, row),
        "doubled" => tell_doubled(alloc, told, row),
        "stack" => tell_stack(alloc, told, row),
        "push" => tell_push(alloc, told, row),
        "growth" => tell_growth(alloc, told, row),
        _ => Err(Trouble::NotUnderstood),
    }
}

/// The numbers of a row, one behind the other.
fn numbers(alloc: Global, row: &str) -> Result<Vec<u64>, Trouble> {
    let mut numbers = Vec::new(alloc);
    for word in row.split_whitespace() {
        numbers.push(number_of(word)?)?;
    }
    Ok(numbers)
}

/// Adds the items of an array, and whether it has none.
fn push_array(told: &mut String, array: &PersistentArray<u64>) -> Result<(), AllocError> {
    write!(told, "{}:", array.is_empty())?;
    for place in 0..array.len() {
        write!(told, " {}", array.get(place))?;
    }
    Ok(())
}

/// Adds the items of a stack, the topmost first, and whether it has none.
fn push_stack(told: &mut String, stack: &PersistentStack<u64>) -> Result<(), AllocError> {
    write!(told, "{}:", stack.is_empty())?;
    for depth in 0..stack.len() {
        write!(told, " {}", stack.top(depth))?;
    }
    Ok(())
}

/// An array with an item changed to 70, and the array that it came from.
fn tell_change(alloc: Global, told: &mut String, row: &str) -> Result<(), Trouble> {
    let (items, at) = row.split_once(':').ok_or(Trouble::NotUnderstood)?;
    let array = PersistentArray::of(alloc, numbers(alloc, items)?.as_slice())?;
    let at = number_of(at.trim())?;
    if at >= array.len() {
        return Err(Trouble::NotUnderstood);
    }
    let changed = array.with(alloc, at, 70)?.share()?;
    push_array(told, &changed)?;
    told.push_str(", of ")?;
    push_array(told, &array)?;
    Ok(())
}

/// An array of so many times 8.
fn tell_filled(alloc: Global, told: &mut String, row: &str) -> Result<(), Trouble> {
    let array = PersistentArray::filled(alloc, number_of(row)?, 8_u64)?;
    Ok(push_array(told, &array)?)
}

/// The same with as many times 3 in front.
fn tell_doubled(alloc: Global, told: &mut String, row: &str) -> Result<(), Trouble> {
    let array = PersistentArray::filled(alloc, number_of(row)?, 8_u64)?;
    let doubled = array.doubled(alloc, 3)?;
    Ok(push_array(told, &doubled)?)
}

/// A stack onto which numbers were pushed.
fn pushed(alloc: Global, row: &str) -> Result<PersistentStack<u64>, Trouble> {
    let mut stack = PersistentStack::empty();
    for word in row.split_whitespace() {
        stack = stack.push(alloc, number_of(word)?)?;
    }
    Ok(stack)
}

/// A stack onto which the numbers of a row were pushed.
fn tell_stack(alloc: Global, told: &mut String, row: &str) -> Result<(), Trouble> {
    let stack = pushed(alloc, row)?.share()?;
    Ok(push_stack(told, &stack)?)
}

/// What is below the topmost item of a stack.
fn below(stack: &PersistentStack<u64>) -> Result<PersistentStack<u64>, Trouble> {
    if stack.is_empty() {
        Err(Trouble::NotUnderstood)
    } else {
        Ok(stack.below(1)?)
    }
}

/// What is below the topmost item of a stack, that with 70 pushed, and the stack.
fn tell_push(alloc: Global, told: &mut String, row: &str) -> Result<(), Trouble> {
    let stack = pushed(alloc, row)?;
    let rest = below(&stack)?;
    let other = rest.push(alloc, 70)?;
    push_stack(told, &rest)?;
    told.push_str(", then ")?;
    push_stack(told, &other)?;
    told.push_str(", of ")?;
    push_stack(told, &stack)?;
    Ok(())
}

/// The topmost item behind each push of a number from 0 on, and how many there are then.
fn tell_growth(alloc: Global, told: &mut String, row: &str) -> Result<(), Trouble> {
    let mut stack = PersistentStack::empty();
    let count: u64 = number_of(row)?;
    for item in 0..count {
        stack = stack.push(alloc, item)?;
        if !stack.is_empty() {
            write!(told, "{} ", stack.top(0))?;
        }
    }
    write!(told, "of {}", stack.len())?;
    Ok(())
}
