// The labels of code, with their places.
ghost use Rattle.std.specs.Prelude.{◌≡◌, [], ◌∷◌, ◌++◌, ℕ, List as Items, MatchResult, None};
ghost use Rattle.cb_asm_line.specs.Label.{Label as AnyLabel};
ghost use Rattle.cb_asm_line.specs.declared.program.CodeLine.{CodeLine as AnyLine};
ghost use Rattle.cb_asm_line.specs.declared.program.CodeLine.TheVariants.{Here};
ghost use Rattle.cb_asm_record.specs.Grammar.{HasLabel};
ghost use Rattle.cb_asm_record.specs.Inner.{AreAstray, AreAt, AreWalked, IsLaid, Makes, Refuses};
ghost use Rattle.cb_asm_record.specs.Labels.{labels_from, place_at, place_in};

use crate::size::behind;
use crate::stop::Stop;
use cb_asm_line::{CodeLine, Label};
use cb_plain::List;
use std::alloc::Global;
use std::collections::BTreeMap;
use std::marker::Model;

/// The labels of code, with their places. Contracts see the lines of the code.
#[derive(Drop)]
pub(crate) struct Labels<'a> {
    lines: &'a List<CodeLine>,
    places: BTreeMap<&'a [u8], u16>,
}

impl<'a> Model for Labels<'a> {
    ghost use Rattle.std.specs.Prelude.{List};
    ghost use Rattle.cb_asm_line.specs.declared.program.CodeLine.{CodeLine as AnyLine};
    ghost use Rattle.cb_asm_record.specs.Inner.{AreAt};
    ghost use Rattle.cb_asm_record.specs.Labels.{labels_from};

    ghost Value = { List AnyLine };

    ghost view = { λ labels. labels.lines.now };

    ghost invariant = { λ labels. AreAt (labels_from 0 labels.lines.now) labels.places };
}

impl<'a> Labels<'a> {
    /// The place of a label. `NoRecord` where it doesn't stand there. Takes time in its length, times the logarithm of
    /// their number.
    pub(crate) fn place(&self, label: &'a Label) -> Result<u16, Stop>
        ensures { Makes (place_at self.now label.now) (HasLabel self.now label.now) result }
    {
        match self.places.get(&label.as_slice()) {
            Some(place) => Ok(*place),
            None => Err(Stop::NoRecord),
        }
    }
}

/// The labels of code. `NoRecord` where one stands twice, or the code has more than 65535 bytes. Takes time in the number
/// of lines, times its logarithm.
pub(crate) fn labels_of<'a>(alloc: Global, lines: &'a List<CodeLine>) -> Result<Labels<'a>, Stop>
    ensures { Makes lines.now (IsLaid lines.now) result }
{
    let places = places_of(alloc, lines.as_slice())?;
    Ok(Labels { lines, places })
}

/// The places of the labels of code.
fn places_of<'a>(alloc: Global, lines: &'a [CodeLine]) -> Result<BTreeMap<&'a [u8], u16>, Stop>
    ensures { MatchResult result (λ places. AreAt (labels_from 0 lines.now) places × IsLaid lines.now) (Refuses (IsLaid lines.now)) }
{
    let mut places = BTreeMap::new(alloc);
    let mut pc = 0;
    for line in lines {
        pc = walk(&mut places, pc, line)?;
    }
    Ok(places)
}

/// Goes over a line at a place, and gives the place behind it.
fn walk<'a>(places: &mut BTreeMap<&'a [u8], u16>, pc: u16, line: &'a CodeLine) -> Result<u16, Stop>
    ensures { (lines : Items AnyLine) → AreWalked lines places.old pc
        → MatchResult result (AreWalked (lines ++ line.now ∷ []) places.new) (AreAstray (lines ++ line.now ∷ [])) }
{
    match line {
        CodeLine::Here(label) => {
            set(places, pc, label)?;
            Ok(pc)
        }
        CodeLine::Do(instruction) => behind(pc, instruction),
    }
}

/// A label stands at a place. `NoRecord` where it stood at one before.
fn set<'a>(places: &mut BTreeMap<&'a [u8], u16>, pc: u16, label: &'a Label) -> Result<(), Stop>
    ensures { (labels : Items (AnyLabel × ℕ)) → AreAt labels places.old
        → MatchResult result (λ _. AreAt (labels ++ (label.now, pc) ∷ []) places.new × (place_in labels label.now ≡ None))
        (Refuses (place_in labels label.now ≡ None)) }
{
    if places.insert(label.as_slice(), pc)?.is_some() {
        return Err(Stop::NoRecord);
    }
    Ok(())
}
