// The arguments of natives that set the text of their own object, or copy ranges, by their sorts.
ghost use Rattle.std.specs.Prelude.{◌≡◌, ◌∷◌, [], true};
ghost use Rattle.cb_plain.specs.declared.value.Value.TheVariants as values;
ghost use Rattle.cb_shapes.specs.declared.sort.Sort.TheVariants as sorts;
ghost use Rattle.cb_natives.specs.Given.{have_sorts};

use cb_plain::Value;

/// A reference and a long.
pub(crate) fn reference_long(arguments: &[Value]) -> (u64, i64)
    requires { have_sorts (sorts.Reference ∷ sorts.Long ∷ []) arguments.now ≡ true }
    ensures { arguments.now ≡ values.Ref result.0 ∷ values.Long result.1 ∷ [] }
{
    match arguments {
        [Value::Ref(at), Value::Long(number)] => (*at, *number),
        _ => unreachable!(),
    }
}

/// A reference and two ints.
pub(crate) fn reference_ints(arguments: &[Value]) -> (u64, i32, i32)
    requires { have_sorts (sorts.Reference ∷ sorts.Int ∷ sorts.Int ∷ []) arguments.now ≡ true }
    ensures { arguments.now ≡ values.Ref result.0 ∷ values.Int result.1 ∷ values.Int result.2 ∷ [] }
{
    match arguments {
        [Value::Ref(at), Value::Int(one), Value::Int(other)] => (*at, *one, *other),
        _ => unreachable!(),
    }
}

/// Two references and two ints.
pub(crate) fn references_ints(arguments: &[Value]) -> (u64, u64, i32, i32)
    requires { have_sorts (sorts.Reference ∷ sorts.Reference ∷ sorts.Int ∷ sorts.Int ∷ []) arguments.now ≡ true }
    ensures { arguments.now ≡ values.Ref result.0 ∷ values.Ref result.1 ∷ values.Int result.2 ∷ values.Int result.3 ∷ [] }
{
    match arguments {
        [
            Value::Ref(at),
            Value::Ref(array),
            Value::Int(one),
            Value::Int(other),
        ] => (*at, *array, *one, *other),
        _ => unreachable!(),
    }
}

/// Two references, each with an int, and one int more.
pub(crate) fn range_arguments(arguments: &[Value]) -> (u64, i32, u64, i32, i32)
    requires { have_sorts (sorts.Reference ∷ sorts.Int ∷ sorts.Reference ∷ sorts.Int ∷ sorts.Int ∷ []) arguments.now ≡ true }
    ensures { arguments.now ≡ values.Ref result.0 ∷ values.Int result.1 ∷ values.Ref result.2 ∷ values.Int result.3 ∷ values.Int result.4 ∷ [] }
{
    match arguments {
        [
            Value::Ref(source),
            Value::Int(from),
            Value::Ref(to),
            Value::Int(at),
            Value::Int(count),
        ] => (*source, *from, *to, *at, *count),
        _ => unreachable!(),
    }
}
