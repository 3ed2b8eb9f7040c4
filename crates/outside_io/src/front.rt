//! All that a reader gives, up to a limit.

ghost use Rattle.std.specs.Prelude.{◌≡◌, ◌<◌, ◌≤◌, IfOk, IfSome, IsErrOf, length};
ghost use Rattle.outside_io.specs.Counted.{count_of, value_of};
ghost use Rattle.outside_io.specs.Files.{FaultsBy};

use crate::counted::Counted;
use crate::files::FileError;
use std::alloc::Global;
use std::io::Read;

// So many bytes are asked for at once.
const PIECE_BYTES: usize = 65536;

/// All that is left in a reader: at most `limit` bytes.
///
/// # Errors
///
/// `TooLong` exactly where more than `limit` bytes are left, `Failed` only where a read of it failed,
/// which is counted of it, and `Memory` where no memory is found.
pub fn whole_of<T: Read>(
    alloc: Global,
    from: &mut Counted<T>,
    limit: u32,
) -> Result<Vec<u8>, FileError>
    ensures within { IfOk result (λ bytes. length bytes.items ≤ limit) }
    ensures content { IfSome (T.remaining (value_of from.old)) (λ left.
        IfOk result (λ bytes. bytes.items ≡ left)) }
    ensures too_long { IfSome (T.remaining (value_of from.old)) (λ left.
        IsErrOf result FileError.TooLong → limit < length left) }
    ensures counts { FaultsBy (count_of from.old) (count_of from.new) result }
{
    let mut piece = vec![in alloc; 0; PIECE_BYTES]?;
    let mut bytes = Vec::new(alloc);
    while bytes.len() <= limit as usize {
        let count = from.read(&mut piece)?;
        if count == 0 {
            return Ok(bytes);
        }
        bytes.extend_from_slice(&piece[..count])?;
    }
    Err(FileError::TooLong)
}
