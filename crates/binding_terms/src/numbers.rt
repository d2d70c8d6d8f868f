ghost use Rattle.std.specs.Prelude.{◌≡◌, IfOk};

use crate::text::NoMemory;

/// The place in a list as the number of what stands there. No memory holds a list with more places than numbers.
pub fn number(place: usize) -> Result<u32, NoMemory>
    ensures { IfOk result (λ n. n ≡ place) }
{
    match u32::try_from(place) {
        Ok(n) => Ok(n),
        Err(_) => Err(NoMemory),
    }
}
