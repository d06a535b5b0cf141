// Where the file of a class stands in a folder.
ghost use Rattle.std.specs.Prelude.{◌≡◌, IfOk, option_map, string_bytes};
ghost use Rattle.cb_load.specs.Files.{path_of};

use std::alloc::{AllocError, Global};

/// `java/`, with which the names of the library's classes begin.
const JAVA: &[u16] = &[
    b'j' as u16,
    b'a' as u16,
    b'v' as u16,
    b'a' as u16,
    b'/' as u16,
];

/// The path of a class's file below a folder, if the class may have one. Takes time in the lengths of the two.
pub fn path_of(alloc: Global, root: &str, name: &[u16]) -> Result<Option<String>, AllocError>
    ensures { IfOk result (λ path. option_map string_bytes path ≡ path_of root.now name.now) }
{
    if name.starts_with(JAVA) || name.contains(&0) {
        return Ok(None);
    }
    let Ok(text) = String::from_utf16(alloc, name)? else {
        return Ok(None);
    };
    let mut path = String::from_str(alloc, root)?;
    path.push_str("/")?;
    path.push_str(&text)?;
    path.push_str(".class")?;
    Ok(Some(path))
}
