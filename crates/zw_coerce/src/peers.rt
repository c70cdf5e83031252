// Peer types.
ghost use Rattle.std.specs.Prelude.{◌≡◌, ◌<◌, length, List, All, Option, None, Some, IfOk, IfErr, MatchOption};
ghost use Rattle.std.specs.Option.{option_map};
ghost use Rattle.zw_types.specs.TypeTrees.{TypeTree};
ghost use Rattle.zw_types.specs.Readings.{type_at, form_tree};
ghost use Rattle.zw_values.specs.Coercions.{is_no_return, is_undefined_type, peer_of, integer_peer, integer_of};
ghost use Rattle.zw_coerce.specs.Answers.{peer_in};

use crate::answers::Code;
use crate::integers::has_all;
use std::alloc::Global;
use zw_num::IntTy;
use zw_types::{TypeForm, TypeId, Types};
use zw_values::{integer_type, is_same};

/// The type that several types have in common (Zig Language Reference 0.13.0, Peer Type Resolution), taken from the left; error
/// 14 exactly where there is none. It takes no memory so far, and adds no type.
pub fn peer(_alloc: Global, types: &mut Types, of: &[TypeId]) -> Result<TypeId, Code>
    requires some { 0 < length of.now }
    requires held { All (λ id. id.0 < length types.old.trees) of.now }
    ensures found { IfOk result (λ id. peer_in types.old.trees of.now ≡ Some (type_at types.old.trees id)) }
    ensures names_one { IfOk result (λ id. id.0 < length types.old.trees) }
    ensures none { IfErr result (λ code. (code ≡ Code.Error 14) × (peer_in types.old.trees of.now ≡ None)) }
    ensures same { types.new ≡ types.old }
{
    let mut chosen = of[0];
    for i in 1..of.len() {
        match peer_of_two(types, chosen, of[i]) {
            Some(peer) => chosen = peer,
            None => return Err(Code::Error(14)),
        }
    }
    Ok(chosen)
}

/// The type that two types have in common.
fn peer_of_two(types: &Types, a: TypeId, b: TypeId) -> Option<TypeId>
    requires a_held { a.0 < length types.now.trees }
    requires b_held { b.0 < length types.now.trees }
    ensures peer { option_map (type_at types.now.trees) result ≡ peer_of (type_at types.now.trees a) (type_at types.now.trees b) }
    ensures names_one { MatchOption result (Unit {0}) (λ id. id.0 < length types.now.trees) }
{
    if is_no_return(types.get(a)) {
        Some(b)
    } else if is_no_return(types.get(b)) {
        Some(a)
    } else if is_undefined(types.get(a)) {
        Some(b)
    } else if is_undefined(types.get(b)) || is_same(types, a, b) {
        Some(a)
    } else {
        integer_peer(types, a, b)
    }
}

/// Of two integer types `comptime_int` gives way, and else the one is taken that has all values of the other.
fn integer_peer(types: &Types, a: TypeId, b: TypeId) -> Option<TypeId>
    requires a_held { a.0 < length types.now.trees }
    requires b_held { b.0 < length types.now.trees }
    ensures peer { option_map (type_at types.now.trees) result ≡
        (let x = type_at types.now.trees a in let y = type_at types.now.trees b in integer_peer x (integer_of x) y (integer_of y)) }
    ensures names_one { MatchOption result (Unit {0}) (λ id. id.0 < length types.now.trees) }
{
    match (integer_type(types, a), integer_type(types, b)) {
        (Some(IntTy::Comptime), Some(_)) => Some(b),
        (Some(_), Some(IntTy::Comptime)) => Some(a),
        (Some(x), Some(y)) if has_all(x, y) => Some(a),
        (Some(x), Some(y)) if has_all(y, x) => Some(b),
        _ => None,
    }
}

fn is_no_return(form: &TypeForm) -> bool
    ensures { (trees : List TypeTree) → result ≡ is_no_return (form_tree trees form.now) }
{
    matches!(form, TypeForm::NoReturn)
}

fn is_undefined(form: &TypeForm) -> bool
    ensures { (trees : List TypeTree) → result ≡ is_undefined_type (form_tree trees form.now) }
{
    matches!(form, TypeForm::Undefined)
}
