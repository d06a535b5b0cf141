// Numbers that natives are given as places, lengths and ranges.
ghost use Rattle.std.specs.Prelude.{◌≡◌, ◌<◌, ◌^◌, IfSome};
ghost use Rattle.cb_natives.specs.MakingOwn.{natural_in, place_in, range_in};

/// A number that isn't negative.
pub(crate) fn natural_in(number: i32) -> Option<u32>
    ensures is { result ≡ natural_in number }
    ensures few { IfSome result (λ natural. natural < 2 ^ 31) }
{
    if number < 0 {
        None
    } else {
        Some(number as u32)
    }
}

/// A number as a place of so many.
pub(crate) fn place_in(place: i32, count: u32) -> Option<u32>
    ensures { result ≡ place_in place count }
{
    if place < 0 {
        return None;
    }
    let place = place as u32;
    if place < count { Some(place) } else { None }
}

/// Two numbers as the start and the size of a range of so many.
pub(crate) fn range_in(from: i32, size: i32, count: u32) -> Option<(u32, u32)>
    ensures { result ≡ range_in from size count }
{
    if from < 0 {
        return None;
    }
    if size < 0 {
        return None;
    }
    let from = from as u32;
    let size = size as u32;
    if from + size <= count {
        Some((from, size))
    } else {
        None
    }
}
