// Ranges of integer types.
ghost use Rattle.std.specs.Prelude.{◌≡◌};
ghost use Rattle.zw_num.specs.Arithmetic.{IsType};
ghost use Rattle.zw_values.specs.Coercions.{has_all};

use zw_num::IntTy;

/// Whether the first type has all values of the second.
pub(crate) fn has_all(a: IntTy, b: IntTy) -> bool
    requires a_is_type { IsType a }
    requires b_is_type { IsType b }
    ensures { result ≡ has_all a b }
{
    a.least() <= b.least() && b.greatest() <= a.greatest()
}
