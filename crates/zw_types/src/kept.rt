// What is known of the layouts of the types of a table, each from what is known of its parts.
ghost use Rattle.std.specs.Prelude.{◌≡◌, ◌<◌, length, List, [], map, All, true, false, slice_get, slice_index_or, Option, Some, None, MatchOption};
ghost use Rattle.std.specs.Option.{option_map};
ghost use Rattle.zw_types.specs.TypeTrees.{TypeTree, ShapeTree, VoidType, is_container};
ghost use Rattle.zw_types.specs.TypeTexts.{element_of};
ghost use Rattle.zw_types.specs.declared.type_form.FieldShape.{FieldShape};
ghost use Rattle.zw_types.specs.declared.types.Entry.{Entry};
ghost use Rattle.zw_types.specs.Readings.{form_tree, type_at, sentinel_tree, types_in_form, types_in_shape, number_in, shape_tree, field_tree};
ghost use Rattle.zw_types.specs.Entries.{trees_of, table_of, shape_in, AreEntries, HasKnownShape};
ghost use Rattle.zw_types.specs.Sizes.{is_comptime_only, is_pointer, element_count, unless_comptime, hidden_tag, no_bytes};
ghost use Rattle.zw_types.specs.KeptLayouts.{IsBounded, IsBoundedKept, known_in, kept_array, kept_optional, kept_error_union, kept_rounded, kept_joined, known_fields, known_struct, known_enum, known_tag, known_union, known_from_parts, IsAround, IsKept, AreRight, IsClosed, AreKept};

use crate::layout::{
    Layout, array_layout, error_union_layout, followed, hidden_tag, integer_layout,
    optional_layout, overlaid, rounded,
};
use crate::type_form::{FieldShape, Shape, TypeForm};
use crate::type_text::element;
use crate::types::Entry;
use crate::value::{TypeId, Value};

/// The layouts of pointers and of slices.
const POINTER: Layout = Layout { size: 4, align: 4 };

const SLICE: Layout = Layout { size: 8, align: 4 };

/// So many elements, where they have a layout.
fn kept_array(of: Option<Layout>, count: u128) -> Option<Layout>
    requires { MatchOption of (Unit {0}) IsBounded }
    ensures { result ≡ kept_array count of }
{
    match of {
        Some(of) => Some(array_layout(count, of)),
        None => None,
    }
}

/// An optional, where its payload has a layout.
fn kept_optional(payload: Option<Layout>, of_pointer: bool) -> Option<Layout>
    requires { MatchOption payload (Unit {0}) IsBounded }
    ensures { result ≡ kept_optional of_pointer payload }
{
    match payload {
        Some(layout) if !of_pointer => Some(optional_layout(layout)),
        _ => payload,
    }
}

/// An error union, where its payload has a layout.
fn kept_error_union(payload: Option<Layout>) -> Option<Layout>
    requires { MatchOption payload (Unit {0}) IsBounded }
    ensures { result ≡ kept_error_union payload }
{
    match payload {
        Some(layout) => Some(error_union_layout(layout)),
        None => None,
    }
}

/// What is there, rounded up to its alignment, where it has a layout.
fn kept_rounded(fields: Option<Layout>) -> Option<Layout>
    requires { MatchOption fields (Unit {0}) IsBounded }
    ensures { result ≡ kept_rounded fields }
{
    match fields {
        Some(layout) => Some(rounded(layout)),
        None => None,
    }
}

/// A part behind what is there, or over it, where both have a layout.
fn kept_joined(over: bool, before: Option<Layout>, part: Option<Layout>) -> Option<Layout>
    requires before { MatchOption before (Unit {0}) IsBounded }
    requires part { MatchOption part (Unit {0}) IsBounded }
    ensures joined { result ≡ kept_joined over before part }
    ensures is_bounded { MatchOption result (Unit {0}) IsBounded }
{
    match (before, part) {
        (Some(before), Some(part)) => {
            if over {
                return Some(overlaid(before, part));
            }
            Some(followed(before, part))
        }
        _ => None,
    }
}

/// How many elements an array has, its sentinel among them.
fn element_count(len: u64, sentinel: &Option<Value>) -> u128
    ensures { (trees : List TypeTree) → result ≡ element_count len (sentinel_tree trees sentinel.now) }
{
    match sentinel {
        Some(_) => u128::from(len) + 1,
        None => u128::from(len),
    }
}

/// What is known of the layout of a type.
fn known(entries: &[Entry], kept: &[Option<Option<Layout>>], ty: TypeId) -> Option<Option<Layout>>
    requires entries { AreEntries entries.now }
    requires as_many { length kept.now ≡ length entries.now }
    requires held { ty.0 < length entries.now }
    requires right { AreRight (table_of entries.now []) kept.now }
    ensures known { result ≡ known_in (trees_of entries.now) kept.now (type_at (trees_of entries.now) ty) }
    ensures is_bounded { IsBoundedKept result }
{
    kept[ty.0 as usize]
}

/// Whether only the compiler knows what a type stands for.
fn is_comptime_only(entries: &[Entry], ty: TypeId) -> bool
    requires entries { AreEntries entries.now }
    requires held { ty.0 < length entries.now }
    ensures { result ≡ is_comptime_only (type_at (trees_of entries.now) ty) }
{
    let mut next = ty;
    loop {
        let entry = &entries[next.0 as usize];
        match element(&entry.form) {
            Some(of) => next = of,
            None => return has_comptime_form(&entry.form),
        }
    }
}

/// Whether only the compiler knows what a form without an element stands for.
fn has_comptime_form(form: &TypeForm) -> bool
    ensures { (trees : List TypeTree) → element_of (form_tree trees form.now) ≡ None → result ≡ is_comptime_only (form_tree trees form.now) }
{
    matches!(
        form,
        TypeForm::ComptimeInt
            | TypeForm::NoReturn
            | TypeForm::TypeType
            | TypeForm::Null
            | TypeForm::Undefined
            | TypeForm::EnumLiteral
            | TypeForm::Func { .. }
    )
}

/// The layout of what leads to a type, unless only the compiler knows that type.
fn unless_comptime(entries: &[Entry], of: TypeId, layout: Layout) -> Option<Layout>
    requires entries { AreEntries entries.now }
    requires held { of.0 < length entries.now }
    ensures { result ≡ unless_comptime (type_at (trees_of entries.now) of) layout }
{
    if is_comptime_only(entries, of) {
        return None;
    }
    Some(layout)
}

/// What is known of fields that lie behind each other, or over each other.
fn known_fields(
    entries: &[Entry],
    kept: &[Option<Option<Layout>>],
    fields: &[FieldShape],
    over: bool,
) -> Option<Option<Layout>>
    requires entries { AreEntries entries.now }
    requires as_many { length kept.now ≡ length entries.now }
    requires held { All (λ (field : FieldShape). field.ty.0 < length entries.now) fields.now }
    requires right { AreRight (table_of entries.now []) kept.now }
    ensures known { result ≡ known_fields (known_in (trees_of entries.now) kept.now) over (Some no_bytes) (map (field_tree (trees_of entries.now)) fields.now) }
    ensures is_bounded { IsBoundedKept result }
{
    let mut so_far = Some(Layout { size: 0, align: 1 });
    for field in fields {
        so_far = kept_joined(over, so_far, known(entries, kept, field.ty)?);
    }
    Some(so_far)
}

/// What is known of the tag of a union with so many fields.
fn known_tag(
    entries: &[Entry],
    kept: &[Option<Option<Layout>>],
    shape: &Shape,
) -> Option<Option<Layout>>
    requires entries { AreEntries entries.now }
    requires as_many { length kept.now ≡ length entries.now }
    requires held { All (λ k. k < length entries.now) (number_in shape.now.tag) }
    requires right { AreRight (table_of entries.now []) kept.now }
    ensures known { result ≡ known_tag (known_in (trees_of entries.now) kept.now) (length shape.now.fields) (option_map (type_at (trees_of entries.now)) shape.now.tag) }
    ensures is_bounded { IsBoundedKept result }
{
    match shape.tag {
        Some(tag) => known(entries, kept, tag),
        None => Some(Some(hidden_tag(shape.fields.len() as u64))),
    }
}

/// What is known of a container from what is known of its fields.
fn known_container(
    entries: &[Entry],
    kept: &[Option<Option<Layout>>],
    form: &TypeForm,
    shape: &Shape,
) -> Option<Option<Layout>>
    requires entries { AreEntries entries.now }
    requires as_many { length kept.now ≡ length entries.now }
    requires held { All (λ k. k < length entries.now) (types_in_shape shape.now) }
    requires right { AreRight (table_of entries.now []) kept.now }
    requires container { is_container (form_tree (trees_of entries.now) form.now) ≡ true }
    ensures { result ≡ known_from_parts (known_in (trees_of entries.now) kept.now) (Some (shape_tree (trees_of entries.now) shape.now)) (form_tree (trees_of entries.now) form.now) }
{
    match form {
        TypeForm::Struct { .. } => {
            let fields = known_fields(entries, kept, shape.fields.as_slice(), false)?;
            Some(kept_rounded(fields))
        }
        TypeForm::Enum { .. } => match shape.tag {
            Some(tag) => known(entries, kept, tag),
            None => None,
        },
        _ => {
            let fields = known_fields(entries, kept, shape.fields.as_slice(), true)?;
            let tag = known_tag(entries, kept, shape)?;
            Some(kept_rounded(kept_joined(false, fields, tag)))
        }
    }
}

/// What is known of a type from what is known of its parts.
fn known_from_parts(
    entries: &[Entry],
    kept: &[Option<Option<Layout>>],
    entry: &Entry,
) -> Option<Option<Layout>>
    requires entries { AreEntries entries.now }
    requires as_many { length kept.now ≡ length entries.now }
    requires held { All (λ k. k < length entries.now) (types_in_form entry.now.form) }
    requires shape { HasKnownShape (length entries.now) entry.now }
    requires right { AreRight (table_of entries.now []) kept.now }
    ensures { result ≡ known_from_parts (known_in (trees_of entries.now) kept.now) (shape_in (trees_of entries.now) entry.now) (form_tree (trees_of entries.now) entry.now.form) }
{
    match &entry.form {
        TypeForm::Struct { .. } | TypeForm::Enum { .. } | TypeForm::Union { .. } => {
            match &entry.shape {
                Some(shape) => known_container(entries, kept, &entry.form, shape),
                None => None,
            }
        }
        _ => known_without_fields(entries, kept, &entry.form),
    }
}

/// What is known of a type that is no container.
fn known_without_fields(
    entries: &[Entry],
    kept: &[Option<Option<Layout>>],
    form: &TypeForm,
) -> Option<Option<Layout>>
    requires entries { AreEntries entries.now }
    requires as_many { length kept.now ≡ length entries.now }
    requires held { All (λ k. k < length entries.now) (types_in_form form.now) }
    requires right { AreRight (table_of entries.now []) kept.now }
    requires no_container { is_container (form_tree (trees_of entries.now) form.now) ≡ false }
    ensures { (shape : Option ShapeTree) → result ≡ known_from_parts (known_in (trees_of entries.now) kept.now) shape (form_tree (trees_of entries.now) form.now) }
{
    match form {
        TypeForm::Int { bits, .. } => Some(Some(integer_layout(*bits))),
        TypeForm::Bool => Some(Some(Layout { size: 1, align: 1 })),
        TypeForm::Void => Some(Some(Layout { size: 0, align: 1 })),
        TypeForm::AnyError | TypeForm::ErrorSet { .. } => Some(Some(Layout { size: 2, align: 2 })),
        TypeForm::Pointer { of, .. } => Some(unless_comptime(entries, *of, POINTER)),
        TypeForm::Slice { of, .. } => Some(unless_comptime(entries, *of, SLICE)),
        TypeForm::Array { .. } | TypeForm::Optional { .. } | TypeForm::ErrorUnion { .. } => {
            known_around(entries, kept, form)
        }
        _ => Some(None),
    }
}

/// What is known of an array, an optional or an error union.
fn known_around(
    entries: &[Entry],
    kept: &[Option<Option<Layout>>],
    form: &TypeForm,
) -> Option<Option<Layout>>
    requires entries { AreEntries entries.now }
    requires as_many { length kept.now ≡ length entries.now }
    requires held { All (λ k. k < length entries.now) (types_in_form form.now) }
    requires right { AreRight (table_of entries.now []) kept.now }
    requires around { IsAround form.now }
    ensures { (shape : Option ShapeTree) → result ≡ known_from_parts (known_in (trees_of entries.now) kept.now) shape (form_tree (trees_of entries.now) form.now) }
{
    match form {
        TypeForm::Array { len, of, sentinel } => {
            let element = known(entries, kept, *of)?;
            Some(kept_array(element, element_count(*len, sentinel)))
        }
        TypeForm::Optional { of } => {
            let payload = known(entries, kept, *of)?;
            Some(kept_optional(payload, is_pointer(entries, *of)))
        }
        TypeForm::ErrorUnion { payload, .. } => {
            let payload = known(entries, kept, *payload)?;
            Some(kept_error_union(payload))
        }
        _ => None,
    }
}

/// Whether a type is a pointer or many-pointer.
fn is_pointer(entries: &[Entry], ty: TypeId) -> bool
    requires entries { AreEntries entries.now }
    requires held { ty.0 < length entries.now }
    ensures { result ≡ is_pointer (type_at (trees_of entries.now) ty) }
{
    is_pointer_form(&entries[ty.0 as usize].form)
}

/// Whether a form is that of a pointer or many-pointer.
fn is_pointer_form(form: &TypeForm) -> bool
    ensures { (trees : List TypeTree) → result ≡ is_pointer (form_tree trees form.now) }
{
    matches!(form, TypeForm::Pointer { .. })
}

/// What comes to be known of the type at a place, where nothing is known of it so far.
fn newly_known(
    entries: &[Entry],
    kept: &[Option<Option<Layout>>],
    place: usize,
) -> Option<Option<Layout>>
    requires entries { AreEntries entries.now }
    requires as_many { length kept.now ≡ length entries.now }
    requires held { place < length entries.now }
    requires right { AreRight (table_of entries.now []) kept.now }
    ensures { MatchOption result
        ((e : Entry) → slice_get entries.now place ≡ Some e → slice_get kept.now place ≡ Some None → known_from_parts (known_in (trees_of entries.now) kept.now) (shape_in (trees_of entries.now) e) (form_tree (trees_of entries.now) e.form) ≡ None)
        (λ layout. (slice_get kept.now place ≡ Some None) × IsKept (table_of entries.now []) (slice_index_or (trees_of entries.now) place VoidType) layout) }
{
    if kept[place].is_some() {
        return None;
    }
    known_from_parts(entries, kept, &entries[place])
}

/// The first type that isn't known and whose parts are, and what is known of it then.
fn next_known(entries: &[Entry], kept: &[Option<Option<Layout>>]) -> Option<(usize, Option<Layout>)>
    requires entries { AreEntries entries.now }
    requires as_many { length kept.now ≡ length entries.now }
    requires right { AreRight (table_of entries.now []) kept.now }
    ensures { MatchOption result (IsClosed (table_of entries.now []) kept.now)
        (λ next. (slice_get kept.now next.0 ≡ Some None) × IsKept (table_of entries.now []) (slice_index_or (trees_of entries.now) next.0 VoidType) next.1) }
{
    for place in 0..entries.len() {
        if let Some(layout) = newly_known(entries, kept, place) {
            return Some((place, layout));
        }
    }
    None
}

/// Keeps all that can be known: types come to be known from their parts, one after the other.
pub(crate) fn settle(entries: &[Entry], kept: &mut Vec<Option<Option<Layout>>>)
    requires entries { AreEntries entries.now }
    requires as_many { length kept.old.items ≡ length entries.now }
    requires right { AreRight (table_of entries.now []) kept.old.items }
    ensures { AreKept (table_of entries.now []) kept.new.items }
{
    loop {
        match next_known(entries, kept.as_slice()) {
            Some((place, layout)) => kept[place] = Some(layout),
            None => return,
        }
    }
}
