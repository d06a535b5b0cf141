// Natives of each form, and the laws called.
use cb_library::{
    Native, fifty_classes, flags_of_methods, four_constructors, marked, natives_once, one_method,
    sound_bodies,
};
use cb_rows::Trouble;

/// Natives of each form.
const NATIVES: [Native; 9] = [
    Native::StringConcat,
    Native::StringBuilderSetLength,
    Native::BooleanNew,
    Native::IntegerValueOf,
    Native::ThrowableGetSuppressed,
    Native::SystemGc,
    Native::StringBuilderLength,
    Native::Flush,
    Native::EnumValueOf,
];

pub(crate) fn tell(told: &mut String, table: &str, row: &str) -> Result<(), Trouble> {
    match (table, row) {
        ("forms", "natives") => tell_forms(told),
        ("laws", "") => {
            call_laws();
            Ok(told.push_str("called")?)
        }
        _ => Err(Trouble::NotUnderstood),
    }
}

/// The form of each native.
fn tell_forms(told: &mut String) -> Result<(), Trouble> {
    for native in NATIVES {
        write!(told, "\n{native:?} {:?}", native.form())?;
    }
    Ok(())
}

/// Calls the laws.
fn call_laws() {
    fifty_classes();
    flags_of_methods();
    four_constructors();
    marked();
    natives_once();
    one_method();
    sound_bodies();
}
