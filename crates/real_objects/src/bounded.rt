// What a reader has, where it is not too much.
ghost use Rattle.std.specs.Prelude.{◌≡◌, ◌≤◌, ◌<◌, ◌-◌, ◌^◌, length, option_map, IfOk, IfSome};
ghost use Rattle.real_objects.specs.Within.{bytes_within};

use std::alloc::Global;
use std::io;
use std::io::Read;

/// All that this reader has to give, or `None` where that is more than `most` bytes.
pub fn read_within<R: Read + Drop>(
    alloc: Global,
    reader: R,
    most: u64,
) -> io::Result<Option<Vec<u8>>>
    requires { most < 2 ^ 64 - 1 }
    ensures bytes { IfOk result (λ found. IfSome (R.remaining reader)
        (λ xs. option_map (λ v. v.items) found ≡ bytes_within most xs)) }
    ensures few { IfOk result (λ found. IfSome found (λ v. length v.items ≤ most)) }
{
    let mut bytes = Vec::new(alloc);
    reader.take(most + 1).read_to_end(&mut bytes)?;
    if bytes.len() as u64 > most {
        Ok(None)
    } else {
        Ok(Some(bytes))
    }
}
