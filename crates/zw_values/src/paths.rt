// The part of a value that a path leads to.
ghost use Rattle.std.specs.Prelude.{◌≡◌, ◌<◌, length, slice_set, List, Some, None, IfOk, OnErr, MatchBool, IsSome};
ghost use Rattle.std.specs.Option.{option_map, option_copied};
ghost use Rattle.zw_types.specs.TypeTrees.{TypeTree};
ghost use Rattle.zw_types.specs.Readings.{value_tree};
ghost use Rattle.zw_values.specs.Paths.{part_of, with_part, value_at, written_at};

use sqlite_items::{Boxed, Items};
use std::alloc::Global;
use zw_base::Oom;
use zw_types::Value;

/// The part of a value that a path leads to; None exactly where the path isn't in the value. A path that goes on inside an
/// undefined part isn't in it.
pub fn read_at<'v>(v: &'v Value, path: &[u64]) -> Option<&'v Value>
    ensures { (types : List TypeTree) → option_map (value_tree types) (option_copied result) ≡ value_at (value_tree types v.now) path.now }
{
    let mut place = v;
    for step in path {
        match part(place, *step) {
            Some(next) => place = next,
            None => return None,
        }
    }
    Some(place)
}

/// Puts a value in place of the part that a path leads to. False exactly where the path isn't in the value; false and Oom
/// change nothing. It takes time in the size of the value.
pub fn write_at(alloc: Global, v: &mut Value, path: &[u64], new: Value) -> Result<bool, Oom>
    ensures done { IfOk result (λ done. MatchBool done
        ((types : List TypeTree) → written_at (value_tree types v.old) path.now (value_tree types new) ≡ Some (value_tree types v.new))
        ((v.new ≡ v.old) × ((types : List TypeTree) → value_at (value_tree types v.old) path.now ≡ None))) }
    ensures err { OnErr result (v.new ≡ v.old) }
{
    match rebuilt(alloc, v, path, new)? {
        Some(written) => {
            *v = written;
            Ok(true)
        }
        None => Ok(false),
    }
}

/// A copy of a value with another one in place of the part that a path leads to; None exactly where the path isn't there.
fn rebuilt(alloc: Global, v: &Value, path: &[u64], new: Value) -> Result<Option<Value>, Oom>
    ensures { IfOk result (λ written. (types : List TypeTree) →
        option_map (value_tree types) written ≡ written_at (value_tree types v.now) path.now (value_tree types new)) }
{
    let Some((step, rest)) = path.split_first() else {
        return Ok(Some(new));
    };
    let Some(old) = part(v, *step) else {
        return Ok(None);
    };
    match rebuilt(alloc, old, rest, new)? {
        Some(written) => Ok(Some(with_part(alloc, v, *step, written)?)),
        None => Ok(None),
    }
}

/// A copy of a value with another one in place of one of its parts.
fn with_part(alloc: Global, v: &Value, step: u64, new: Value) -> Result<Value, Oom>
    requires { (types : List TypeTree) → IsSome (part_of (value_tree types v.now) step) }
    ensures { IfOk result (λ written. (types : List TypeTree) → value_tree types written ≡ with_part (value_tree types v.now) step (value_tree types new)) }
{
    match v {
        Value::Parts(parts) => Ok(Value::Parts(with_item(alloc, parts.as_slice(), step, new)?)),
        Value::Optional(_) => Ok(Value::Optional(Some(Boxed::new(alloc, new)?))),
        Value::Payload(_) => Ok(Value::Payload(Boxed::new(alloc, new)?)),
        Value::Tag { field, .. } => Ok(Value::Tag {
            field: *field,
            payload: Some(Boxed::new(alloc, new)?),
        }),
        _ => v.copy(alloc),
    }
}

/// Copies of values, with another one in place of one of them.
fn with_item(alloc: Global, values: &[Value], step: u64, new: Value) -> Result<Items<Value>, Oom>
    requires { step < length values.now }
    ensures { IfOk result (λ written. written ≡ slice_set values.now step new) }
{
    let mut copies = Items::new(alloc);
    for value in values {
        copies.push(value.copy(alloc)?)?;
    }
    copies.set(step as usize, new);
    Ok(copies)
}

/// The part of a value that a step leads to: the field of a struct or the element of an array with that number, the payload of
/// an optional or of an error union at 0, and the active field of a union at its place.
fn part(v: &Value, step: u64) -> Option<&Value>
    ensures { (types : List TypeTree) → option_map (value_tree types) (option_copied result) ≡ part_of (value_tree types v.now) step }
{
    match v {
        Value::Parts(parts) => parts.get(step as usize),
        Value::Optional(Some(payload)) if step == 0 => Some(payload.get()),
        Value::Payload(payload) if step == 0 => Some(payload.get()),
        Value::Tag {
            field,
            payload: Some(payload),
        } if step == u64::from(*field) => Some(payload.get()),
        _ => None,
    }
}
