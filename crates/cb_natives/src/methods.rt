// Which native a method of a program is.
ghost use Rattle.std.specs.Prelude.{◌≡◌, ◌<◌, length};
ghost use Rattle.cb_machine.specs.Natives.{native_of};

use crate::native_at::native_in;
use cb_library::Native;
use cb_link::Program;

/// The native that a method is, if it is one of the library's. Takes constant time.
pub fn native_of(program: &Program, method: u32) -> Option<Native>
    requires { method < length program.now.methods }
    ensures { result ≡ native_of program.now method }
{
    native_in(program.class_of(method), program.place_of(method))
}
