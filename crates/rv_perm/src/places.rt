// The places of the numbers of a list.
ghost use Rattle.std.specs.Prelude.{◌≡◌, ◌^◌, ◌≤◌, ◌⊎◌, length, IfOk, IfErr, None, Some};
ghost use Rattle.rv_perm.specs.declared.perm.TheConstants.{MOST_PERM_LINES};
ghost use Rattle.rv_perm.specs.Perm.{IsEachOnce, fault_below, lines_for};
ghost use Rattle.rv_perm.specs.inside.Places.{AreInverse};
ghost use Rattle.rv_perm.specs.declared.fault.PermFault.TheVariants.{Mem};

use super::fault::PermFault;
use super::perm::MOST_PERM_LINES;
use std::alloc::Global;

// The number of lines that have `count` words.
pub(crate) fn lines_of(count: usize) -> Option<u8>
    ensures { result ≡ lines_for count }
{
    for lines in 1..MOST_PERM_LINES + 1 {
        if 1usize << lines == count {
            return Some(lines);
        }
    }
    None
}

// For each number the place at which it stands, or the fault at the least place.
pub(crate) fn places_of(alloc: Global, numbers: &[u32]) -> Result<Vec<u32>, PermFault>
    requires { length numbers.now ≤ 2 ^ MOST_PERM_LINES }
    ensures none { IfOk result (λ v. fault_below numbers.now (length numbers.now) ≡ None) }
    ensures once { IfOk result (λ v. IsEachOnce numbers.now) }
    ensures places { IfOk result (λ v. AreInverse numbers.now v.items) }
    ensures fault { IfErr result (λ f. (f ≡ Mem) ⊎ (fault_below numbers.now (length numbers.now) ≡ Some f)) }
{
    let count = numbers.len() as u32;
    // A number that has not been met stands at no place, which is written as the count.
    let Ok(mut places) = vec![in alloc; count; numbers.len()] else {
        return Err(PermFault::Mem);
    };
    for (place, number) in numbers.iter().enumerate() {
        if *number >= count {
            return Err(PermFault::OutOfRange(place as u32));
        }
        let first = places[*number as usize];
        if first < count {
            return Err(PermFault::Repeated(first, place as u32));
        }
        places[*number as usize] = place as u32;
    }
    Ok(places)
}
