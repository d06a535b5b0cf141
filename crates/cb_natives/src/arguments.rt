// The arguments of a native, by their sorts.
ghost use Rattle.std.specs.Prelude.{◌≡◌, ◌∷◌, [], true};
ghost use Rattle.cb_plain.specs.declared.value.Value.TheVariants as values;
ghost use Rattle.cb_shapes.specs.declared.sort.Sort.TheVariants as sorts;
ghost use Rattle.cb_natives.specs.Given.{have_sorts};

use cb_plain::Value;

/// A reference.
pub(crate) fn reference(arguments: &[Value]) -> u64
    requires { have_sorts (sorts.Reference ∷ []) arguments.now ≡ true }
    ensures { arguments.now ≡ values.Ref result ∷ [] }
{
    match arguments {
        [Value::Ref(at)] => *at,
        _ => unreachable!(),
    }
}

/// A reference and an int.
pub(crate) fn reference_int(arguments: &[Value]) -> (u64, i32)
    requires { have_sorts (sorts.Reference ∷ sorts.Int ∷ []) arguments.now ≡ true }
    ensures { arguments.now ≡ values.Ref result.0 ∷ values.Int result.1 ∷ [] }
{
    match arguments {
        [Value::Ref(at), Value::Int(number)] => (*at, *number),
        _ => unreachable!(),
    }
}

/// Two ints.
pub(crate) fn ints(arguments: &[Value]) -> (i32, i32)
    requires { have_sorts (sorts.Int ∷ sorts.Int ∷ []) arguments.now ≡ true }
    ensures { arguments.now ≡ values.Int result.0 ∷ values.Int result.1 ∷ [] }
{
    match arguments {
        [Value::Int(one), Value::Int(other)] => (*one, *other),
        _ => unreachable!(),
    }
}

/// Two references.
pub(crate) fn references(arguments: &[Value]) -> (u64, u64)
    requires { have_sorts (sorts.Reference ∷ sorts.Reference ∷ []) arguments.now ≡ true }
    ensures { arguments.now ≡ values.Ref result.0 ∷ values.Ref result.1 ∷ [] }
{
    match arguments {
        [Value::Ref(one), Value::Ref(other)] => (*one, *other),
        _ => unreachable!(),
    }
}

/// An int.
pub(crate) fn int(arguments: &[Value]) -> i32
    requires { have_sorts (sorts.Int ∷ []) arguments.now ≡ true }
    ensures { arguments.now ≡ values.Int result ∷ [] }
{
    match arguments {
        [Value::Int(number)] => *number,
        _ => unreachable!(),
    }
}

/// A long.
pub(crate) fn long(arguments: &[Value]) -> i64
    requires { have_sorts (sorts.Long ∷ []) arguments.now ≡ true }
    ensures { arguments.now ≡ values.Long result ∷ [] }
{
    match arguments {
        [Value::Long(number)] => *number,
        _ => unreachable!(),
    }
}

/// Two longs.
pub(crate) fn longs(arguments: &[Value]) -> (i64, i64)
    requires { have_sorts (sorts.Long ∷ sorts.Long ∷ []) arguments.now ≡ true }
    ensures { arguments.now ≡ values.Long result.0 ∷ values.Long result.1 ∷ [] }
{
    match arguments {
        [Value::Long(one), Value::Long(other)] => (*one, *other),
        _ => unreachable!(),
    }
}
