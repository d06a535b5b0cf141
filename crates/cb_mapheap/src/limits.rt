// What is asked for, against what is counted.
ghost use Rattle.std.specs.Prelude.{◌≡◌, IfSome};
ghost use Rattle.cb_heap.specs.Grants.{words_granted};
ghost use Rattle.cb_mapheap.specs.Room.{one_has_reached};

use cb_plain::Request;

/// Whether an entry has reached so many words.
pub(crate) fn one_reaches(request: &Request, most: u64) -> bool
    ensures { result ≡ one_has_reached most request.now }
{
    for i in 0..request.len() {
        if request.at(i).words >= most {
            return true;
        }
    }
    false
}

/// All words that are asked for, or none where they are too many for a number of 64 bits.
pub(crate) fn words_asked(request: &Request) -> Option<u64>
    ensures { IfSome result (λ words. words ≡ words_granted request.now) }
{
    let mut sum = 0u64;
    for i in 0..request.len() {
        sum = sum.checked_add(request.at(i).words)?;
    }
    Some(sum)
}
