// Lists, names, tables of places, sets and flows, with ample memory.
use crate::estimates::worked_estimates;
use crate::steps::count_two;
use cb_plain::{
    Flow, Marks, Name, Names, Numbers, OutOfMemory, PlaceTable, Set, Shape, Shapes, Value,
};
use cb_rows::{Trouble, number_of};
use std::alloc::Global;

pub(crate) fn tell(
    alloc: Global,
    told: &mut String,
    table: &str,
    row: &str,
) -> Result<(), Trouble> {
    match table {
        "list" => tell_list(alloc, told, row),
        "name" => tell_name(alloc, told, row),
        "shapes" => tell_shapes(alloc, told),
        "first at a place" => tell_places(alloc, told, row),
        "set" => tell_set(alloc, told, row),
        "flow" => tell_flow(alloc, told, row),
        "laws" => {
            worked_estimates();
            count_two();
            Ok(told.push_str("called")?)
        }
        _ => Err(Trouble::NotUnderstood),
    }
}

/// The numbers of a row, one behind the other.
fn numbers(alloc: Global, row: &str) -> Result<Numbers, Trouble> {
    let mut list = Numbers::new(alloc);
    for item in row.split_whitespace() {
        list.push(number_of(item)?)?;
    }
    Ok(list)
}

/// A list that is read item by item into another one, with room for it.
fn again(alloc: Global, list: &Numbers) -> Result<Numbers, OutOfMemory> {
    let mut again = Numbers::with_capacity(alloc, list.len())?;
    for item in list {
        again.push(*item)?;
    }
    Ok(again)
}

/// The length of a list, whether it is empty, its items, those that are read one by one, and the second.
fn tell_list(alloc: Global, told: &mut String, row: &str) -> Result<(), Trouble> {
    let list = numbers(alloc, row)?;
    write!(told, "{} {}", list.len(), list.is_empty())?;
    write!(told, " {:?}", list.as_slice())?;
    write!(told, " {:?}", again(alloc, &list)?.as_slice())?;
    if list.len() > 1 {
        write!(told, " {}", *list.get(1))?;
    }
    Ok(())
}

/// The text of a name in a list.
fn tell_name(alloc: Global, told: &mut String, row: &str) -> Result<(), Trouble> {
    let mut names = Names::new(alloc);
    names.push(Name::of(alloc, row)?)?;
    if names.len() == 1 {
        told.push_str(names.get(0).text())?;
    }
    Ok(())
}

/// The shapes of objects with one reference, and of arrays without references.
fn shapes(alloc: Global) -> Result<Shapes, OutOfMemory> {
    let mut marks = Marks::new(alloc);
    marks.push(true)?;
    let mut shapes = Shapes::new(alloc);
    shapes.push(Shape::Fields(marks))?;
    shapes.push(Shape::Elements(false))?;
    Ok(shapes)
}

/// How many shapes there are, whether the second is that of arrays without references, and whether a reference and a long differ.
fn tell_shapes(alloc: Global, told: &mut String) -> Result<(), Trouble> {
    let shapes = shapes(alloc)?;
    write!(told, "{}", shapes.len())?;
    if shapes.len() > 1 {
        let is_array = matches!(shapes.get(1), Shape::Elements(false));
        write!(told, " {is_array}")?;
    }
    write!(told, " {}", Value::Ref(0) != Value::Long(0))?;
    Ok(())
}

/// The index of the first item at each place of a row, of items at 4, 0 and 4.
fn tell_places(alloc: Global, told: &mut String, row: &str) -> Result<(), Trouble> {
    let items = [(4, 'a'), (0, 'b'), (4, 'c')];
    let table = PlaceTable::of(alloc, items.as_slice())?;
    for place in row.split_whitespace() {
        write!(told, "{:?} ", table.index(number_of(place)?))?;
    }
    Ok(())
}

/// The marks of a set of so many parts, into which parts are put behind a `+` and out of which behind a `-`.
fn tell_set(alloc: Global, told: &mut String, row: &str) -> Result<(), Trouble> {
    let (parts, rest) = row.split_once(':').ok_or(Trouble::NotUnderstood)?;
    let mut set = Set::make(alloc, number_of(parts)?)?;
    for change in rest.split_whitespace() {
        put(&mut set, change)?;
    }
    write!(told, "{} {:?}", set.parts(), set.as_slice())?;
    for part in 0..set.parts() {
        write!(told, " {}", set.has(part))?;
    }
    Ok(())
}

/// Puts a part into a set or takes it out.
fn put(set: &mut Set, change: &str) -> Result<(), Trouble> {
    let (member, part) = match change.strip_prefix("+") {
        Some(part) => (true, part),
        None => (
            false,
            change.strip_prefix("-").ok_or(Trouble::NotUnderstood)?,
        ),
    };
    let part = number_of(part)?;
    if part >= set.parts() {
        return Err(Trouble::NotUnderstood);
    }
    set.put(part, member);
    Ok(())
}

/// The amounts of a flow through two parts and along two edges, of which three are those of a row: that to the second part, that from the first
/// one, and that along the second edge.
fn tell_flow(alloc: Global, told: &mut String, row: &str) -> Result<(), Trouble> {
    let (first, rest) = row.split_once(' ').ok_or(Trouble::NotUnderstood)?;
    let (second, third) = rest.split_once(' ').ok_or(Trouble::NotUnderstood)?;
    let mut flow = Flow::make(alloc, 2, 2)?;
    flow.set_source(1, number_of(first)?);
    flow.set_sink(0, number_of(second)?);
    flow.set_arc(1, number_of(third)?);
    write!(told, "{} {}", flow.source(0), flow.source(1))?;
    write!(told, ", {} {}", flow.sink(0), flow.sink(1))?;
    write!(told, ", {} {}", flow.arc(0), flow.arc(1))?;
    Ok(())
}
