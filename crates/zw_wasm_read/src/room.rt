// Room for lists.
ghost use Rattle.std.specs.Prelude.{◌≡◌, [], IfOk};

use sqlite_items::Items;
use std::alloc::Global;
use zw_base::Oom;

/// An empty list with room for as many items as are to come, but for no more than so many bytes spell, of which each item
/// takes at least some. So no list is moved as it grows, and none has more room than what is read can fill.
pub(crate) fn with_room<T>(
    alloc: Global,
    count: usize,
    bytes: usize,
    least: usize,
) -> Result<Items<T>, Oom>
    ensures { IfOk result (λ items. items ≡ []) }
{
    let most = bytes.checked_div(least).unwrap_or(0);
    Ok(Items::from_vec(Vec::with_capacity(alloc, count.min(most))?))
}
