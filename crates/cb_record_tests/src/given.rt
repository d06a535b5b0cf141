// Class files that share their constants.
use crate::spelled::spelled;
use cb_rows::Trouble;
use std::alloc::{AllocError, Global};

/// The magic number and the version of Java SE 8.
pub(crate) const SE_8: &str = "CAFEBABE 0000 0034";

/// The constants that each file has, without the bracket behind them. A row's own begin at 2D.
///
/// 01 `A`, 02 its class, 03 `java/lang/Object`, 04 its class, 05 `f`, 06 `()V`, 07 `Code`, 08 `StackMapTable`, 09
/// `ConstantValue`, 0A `I`, 0B `f:I`, 0C the field `A.f:I`, 0D `f:()V`, 0E the method `A.f:()V`, 0F the same of an
/// interface, 10 the string `f`, 11 an int, 12 a long, 14 `Skipped`, 15 `<init>`, 16 `<clinit>`, 17 `[I`, 18 its class,
/// 19 `f` again, 1A `J`, 1B `Ljava/lang/String;`, 1C `S`, 1D `C`, 1E `B`, 1F `Z`, 20 the class `B`, 21 `(I)V`, 22
/// `<x>`, 23 `a/b`, 24 no unit, 25 `V`, 26 and 27 methods of 255 and 254 words, 28 `F`, 29 `D`, 2A `finalize`, 2B
/// `(F)V`, 2C `(D)V`.
const POOL: &str = "(, \
    01 'A', 07 0001, 01 'java/lang/Object', 07 0003, 01 'f', 01 '()V', 01 'Code', \
    01 'StackMapTable', 01 'ConstantValue', 01 'I', 0C 0005 000A, 09 0002 000B, 0C 0005 0006, 0A 0002 000D, \
    0B 0002 000D, 08 0005, 03 00000001, 05 0000000000000001, , 01 'Skipped', 01 '<init>', 01 '<clinit>', \
    01 '[I', 07 0017, 01 'f', 01 'J', 01 'Ljava/lang/String;', 01 'S', 01 'C', 01 'B', 01 'Z', \
    07 001E, 01 '(I)V', 01 '<x>', 01 'a/b', 01 '', 01 'V', 01 '(127*JI)V', 01 '(127*J)V', \
    01 'F', 01 'D', 01 'finalize', 01 '(F)V', 01 '(D)V'";

/// What stands before a part of a file that has these constants. The code of handlers is `bipush 7; pop; return`, of 4 bytes. Its places are
/// 0, 2 and 3.
fn before(parts: &str) -> &'static str {
    match parts {
        "constants" => ",",
        "tables" => ")",
        "fields" => ") 0021 0002 0004 () (",
        "methods" => ") 0021 0002 0004 () () (",
        "bodies" => ") 0021 0002 0004 () () (0009 0005 0006 (0007 {0002 0002 ",
        "code" => ") 0021 0002 0004 () () (0009 0005 0006 (0007 {0002 0002 {",
        "handlers" => { ") 0021 0002 0004 () () (0009 0005 0006 (0007 {0001 0000 {10 07 57 B1} (" }
        "frames" => ") 0021 0002 0004 () () (0009 0005 0006 (0007 {0002 0002 {B1} () (0008 {(",
        _ => "",
    }
}

/// What stands behind it.
fn behind(parts: &str) -> &'static str {
    match parts {
        "constants" => ") 0021 0002 0004 () () () ()",
        "fields" => ") () ()",
        "methods" => ") ()",
        "bodies" => "})) ()",
        "code" => "} () ()})) ()",
        "handlers" => ") ()})) ()",
        "frames" => ")})})) ()",
        _ => "",
    }
}

/// Adds the text of the file of a version with a part of this kind.
fn push_file(text: &mut String, version: &str, parts: &str, part: &str) -> Result<(), AllocError> {
    text.push_str(version)?;
    text.push_str(POOL)?;
    text.push_str(before(parts))?;
    text.push_str(part)?;
    text.push_str(behind(parts))
}

/// The file of a version with a part of this kind.
pub(crate) fn file_of(
    alloc: Global,
    version: &str,
    parts: &str,
    part: &str,
) -> Result<Vec<u8>, Trouble> {
    let mut text = String::new(alloc);
    push_file(&mut text, version, parts, part)?;
    spelled(alloc, &[text.as_str()])
}
