// What a checker is shown in place of a chooser's flow and set.
ghost use Rattle.std.specs.Prelude.{◌≡◌, length};

use cb_plain::{Flow, Set};

/// What is changed.
#[derive(Clone, Copy)]
pub(crate) enum Place {
    /// What flows from the source to a part.
    Source,
    /// What flows from a part to the sink.
    Sink,
    /// What flows along an edge.
    Edge,
    /// Whether a part is in the set: where the amount isn't 0.
    Set,
}

/// An amount at a place, by the number of its part or edge.
#[derive(Clone, Copy)]
pub(crate) struct Change {
    pub place: Place,
    pub number: u32,
    pub amount: u64,
}

/// The change of a word (as `source:1=2`), if it is one.
pub(crate) fn read_change(word: &str) -> Option<Change> {
    let (at, amount) = word.split_once('=')?;
    let (name, number) = at.split_once(':')?;
    let place = match name {
        "source" => Place::Source,
        "sink" => Place::Sink,
        "edge" => Place::Edge,
        "set" => Place::Set,
        _ => return None,
    };
    let number = number.parse::<u32>().ok()?;
    let amount = amount.parse::<u64>().ok()?;
    Some(Change {
        place,
        number,
        amount,
    })
}

/// Changes a flow or a set of so many parts and edges. What is at no part or edge is left out.
pub(crate) fn apply(change: Change, parts: u32, edges: u32, flow: &mut Flow, set: &mut Set)
    requires source_each { length flow.old.sources ≡ parts }
    requires sink_each { length flow.old.sinks ≡ parts }
    requires arc_each { length flow.old.arcs ≡ edges }
    requires set_each { length set.old ≡ parts }
    ensures source_each { length flow.new.sources ≡ parts }
    ensures sink_each { length flow.new.sinks ≡ parts }
    ensures arc_each { length flow.new.arcs ≡ edges }
    ensures set_each { length set.new ≡ parts }
{
    let Change { number, amount, .. } = change;
    match change.place {
        Place::Source if number < parts => flow.set_source(number, amount),
        Place::Sink if number < parts => flow.set_sink(number, amount),
        Place::Edge if number < edges => flow.set_arc(number, amount),
        Place::Set if number < parts => set.put(number, amount > 0),
        _ => {}
    }
}
