// What fields and elements keep of values.
ghost use Rattle.std.specs.Prelude.{◌≡◌};
ghost use Rattle.cb_machine.specs.Values.{kept_int, kept_value};

use cb_arith::{Narrow, narrow};
use cb_kinds::Basic;
use cb_plain::Value;

/// What a field or an element of a type keeps of a value: of an int the low bits, where it has fewer (JVMS §6.5, putfield, bastore,
/// castore, sastore).
pub fn kept_value(basic: Basic, value: Value) -> Value
    ensures { result ≡ kept_value basic value }
{
    match value {
        Value::Int(number) => Value::Int(kept_int(basic, number)),
        Value::Long(_) | Value::Ref(_) => value,
    }
}

/// What a field or an element of a type keeps of an int (JVMS §6.5, bastore, castore, sastore, putfield).
fn kept_int(basic: Basic, number: i32) -> i32
    ensures { result ≡ kept_int basic number }
{
    match basic {
        Basic::Boolean => number & 1,
        Basic::Byte => narrow(Narrow::Byte, number),
        Basic::Char => narrow(Narrow::Char, number),
        Basic::Short => narrow(Narrow::Short, number),
        Basic::Int | Basic::Long | Basic::Reference(_) => number,
    }
}
