// Tables of places, by the numbers of variables or of indicators.
ghost use Rattle.std.specs.Prelude.{◌<◌, OnOk, length};
ghost use Rattle.si_defs.specs.Substitutions.{Grows};

use std::alloc::AllocError;

/// Has the table reach to this number, with copies of a value.
pub fn reach<T: Copy>(places: &mut Vec<T>, number: u32, value: T) -> Result<(), AllocError>
    ensures grows { Grows places.old.items places.new.items }
    ensures ok { OnOk result (number < length places.new.items) }
{
    let place = number as usize;
    if places.len() <= place {
        places.resize(place + 1, value)?;
    }
    Ok(())
}
