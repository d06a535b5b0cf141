// What a turn answers that stops for want of room.
ghost use Rattle.std.specs.Prelude.{◌≡◌};
ghost use Rattle.cb_interp.specs.Needing.{stopped};

use crate::Stop;
use cb_heap::NoRoom;

/// What is answered by a turn that stops for want of room.
pub(crate) fn stopped(made: Result<(), NoRoom>) -> Result<(), Stop>
    ensures { result ≡ stopped made }
{
    match made {
        Ok(()) => Ok(()),
        Err(reason) => Err(Stop::NoRoom(reason)),
    }
}
