// The exception table, with indices and places.
ghost use Rattle.std.specs.Prelude.{map};
ghost use Rattle.std.specs.List.{AllByRecursion};
ghost use Rattle.cb_asm_record.specs.Grammar.{CatchHasLabels};
ghost use Rattle.cb_asm_record.specs.Inner.{Makes};
ghost use Rattle.cb_asm_record.specs.Labels.{place_at};
ghost use Rattle.cb_asm_record.specs.Record.{handler_of};

use crate::constants::Constants;
use crate::labels::Labels;
use crate::stop::Stop;
use cb_asm_line::CatchLine;
use cb_classfile::{Handler, Handlers};
use std::alloc::Global;

/// The exception table of code. `NoRecord` where a label doesn't stand there.
pub(crate) fn handlers_of<'a>(
    alloc: Global,
    constants: &Constants<'a>,
    labels: &Labels<'a>,
    catches: &'a [CatchLine],
) -> Result<Handlers, Stop>
    ensures { Makes (map (handler_of constants.now (place_at labels.now)) catches.now)
        (AllByRecursion (CatchHasLabels labels.now) catches.now) result }
{
    let mut handlers = Handlers::with_capacity(alloc, catches.len())?;
    for entry in catches {
        let handler = handler_of(constants, labels, entry)?;
        handlers.push(handler)?;
    }
    Ok(handlers)
}

/// An entry of it.
fn handler_of<'a>(
    constants: &Constants<'a>,
    labels: &Labels<'a>,
    entry: &'a CatchLine,
) -> Result<Handler, Stop>
    ensures { Makes (handler_of constants.now (place_at labels.now) entry.now) (CatchHasLabels labels.now entry.now) result }
{
    let start = labels.place(&entry.start)?;
    let end = labels.place(&entry.end)?;
    let handler = labels.place(&entry.handler)?;
    Ok(Handler {
        start,
        end,
        handler,
        catch_type: constants.optional_class(&entry.class),
    })
}
