// The words in which rows are written: members by flags, name and descriptor, and bodies.

// A field.
macro_rules! field {
    ($flags:expr; $name:expr, $descriptor:expr) => {
        $crate::row::Field {
            flags: $flags,
            name: $name,
            descriptor: $descriptor,
        }
    };
}

// A method of a kind.
macro_rules! method {
    ($flags:expr; $name:expr, $descriptor:expr, $kind:expr) => {
        $crate::row::Method {
            flags: $flags,
            name: $name,
            descriptor: $descriptor,
            kind: $kind,
        }
    };
}

// A method without a body.
macro_rules! abstract_method {
    ($flags:expr; $name:expr, $descriptor:expr) => {
        $crate::row::Method {
            flags: $flags | $crate::flags::ABSTRACT,
            name: $name,
            descriptor: $descriptor,
            kind: $crate::row::Kind::Abstract,
        }
    };
}

// A native.
macro_rules! native {
    ($flags:expr; $name:expr, $descriptor:expr, $native:ident) => {
        $crate::row::Method {
            flags: $flags | $crate::flags::NATIVE,
            name: $name,
            descriptor: $descriptor,
            kind: $crate::row::Kind::Performed(cb_library::Native::$native),
        }
    };
}

// A body without branches, by its greatest operand stack, its locals and its code.
macro_rules! runs {
    ($stack:literal, $locals:literal; [$($insn:expr),* $(,)?]) => {
        $crate::row::Kind::Runs($crate::row::Body {
            max_stack: $stack,
            max_locals: $locals,
            code: &[$($insn),*],
            frame: None,
        })
    };
}

// A body with branches to one instruction, before which there is a frame of these locals.
macro_rules! branches {
    ($stack:literal, $locals:literal; [$($insn:expr),* $(,)?], frame($at:literal, [$($local:expr),*])) => {
        $crate::row::Kind::Runs($crate::row::Body {
            max_stack: $stack,
            max_locals: $locals,
            code: &[$($insn),*],
            frame: Some($crate::row::Frame {
                at: $at,
                locals: &[$($local),*],
            }),
        })
    };
}

pub(crate) use abstract_method;
pub(crate) use branches;
pub(crate) use field;
pub(crate) use method;
pub(crate) use native;
pub(crate) use runs;
