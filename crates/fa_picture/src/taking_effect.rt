//! When the requests of an order may have taken effect.

ghost use Rattle.std.specs.Prelude.{IfOk};
ghost use Rattle.fa_picture.specs.Moments.{AreMoments};

use fa_order::Entry;
use std::alloc::{AllocError, Global};

/// For each entry of an order the number of the message behind which its request may have taken effect: the least numbers that are not
/// below that of the request, and never fall along the order.
///
/// Where the order keeps what was answered before what was asked then, as the entries before the first fault do, each of them is below
/// the number of the answer: of that no clause speaks.
///
/// # Errors
///
/// [`AllocError`] where memory was refused.
///
/// # Cost
///
/// Linear time, and four bytes for each entry.
pub fn moments(alloc: Global, order: &[Entry]) -> Result<Vec<u32>, AllocError>
    ensures { IfOk result (λ moments. AreMoments order.now moments.items) }
{
    let mut moments = Vec::new(alloc);
    let mut latest: u32 = 0;
    for entry in order {
        latest = latest.max(entry.at);
        moments.push(latest)?;
    }
    Ok(moments)
}
