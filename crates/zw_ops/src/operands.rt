// The operands of an operation, which are one or two.
ghost use Rattle.std.specs.Prelude.{◌≡◌, length, [], ◌∷◌, MatchOption};

use zw_types::Value;

/// The operand, where there is just one.
pub(crate) fn one(args: &[Value]) -> Option<&Value>
    ensures { MatchOption result (length args.now ≡ 1 → ⊥) (λ a. args.now ≡ a.now ∷ []) }
{
    match args {
        [a] => Some(a),
        _ => None,
    }
}

/// The operands, where there are just two.
pub(crate) fn two(args: &[Value]) -> Option<(&Value, &Value)>
    ensures { MatchOption result (length args.now ≡ 2 → ⊥) (λ pair. args.now ≡ pair.0.now ∷ pair.1.now ∷ []) }
{
    match args {
        [a, b] => Some((a, b)),
        _ => None,
    }
}
