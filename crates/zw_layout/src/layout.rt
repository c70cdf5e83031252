// Sizes and alignments by the form of a type.
ghost use Rattle.std.specs.Prelude.{◌≡◌, ◌<◌, length, IsTrue, None};
ghost use Rattle.zw_types.specs.Readings.{type_at};
ghost use Rattle.zw_layout.specs.Sizes.{is_simple, integer_layout, HasLayout, IsSize, IsAlign};
ghost use Rattle.zw_layout.specs.FormLayouts.{form_layout};

use zw_types::{TypeForm, TypeId, Types};

/// How many bytes a value takes, and the alignment: it begins at a multiple of `align` bytes.
#[derive(Clone, Copy, Debug, PartialEq, Eq)]
pub struct Layout {
    pub size: u128,
    pub align: u32,
}

/// What `size` answers for more bytes than that: 2^127.
const MOST: u128 = 1 << 127;

/// The bytes of a value of this type, or 2^127 where there are more; None exactly where the type has no run-time form (this
/// project's own; Zig Language Reference 0.13.0, @sizeOf). The type has no parts so far.
pub fn size(types: &Types, ty: TypeId) -> Option<u128>
    requires held { ty.0 < length types.now.trees }
    requires simple { IsTrue (is_simple (type_at types.now.trees ty)) }
    ensures { IsSize types.now (type_at types.now.trees ty) result }
{
    layout_of(types, ty).map(|layout| layout.size.min(MOST))
}

/// The alignment in bytes of a value of this type; None exactly where the type has no run-time form (this project's own; Zig
/// Language Reference 0.13.0, @alignOf). The type has no parts so far.
pub fn align(types: &Types, ty: TypeId) -> Option<u32>
    requires held { ty.0 < length types.now.trees }
    requires simple { IsTrue (is_simple (type_at types.now.trees ty)) }
    ensures { IsAlign types.now (type_at types.now.trees ty) result }
{
    layout_of(types, ty).map(|layout| layout.align)
}

/// Where the part begins that a step leads to, in bytes; None exactly where there is no such part. The type has no parts so
/// far.
pub fn offset(types: &Types, ty: TypeId, step: u64) -> Option<u128>
    requires held { ty.0 < length types.now.trees }
    requires simple { IsTrue (is_simple (type_at types.now.trees ty)) }
    ensures { result ≡ None }
{
    None
}

/// The layout of a type; None where it has no run-time form.
fn layout_of(types: &Types, ty: TypeId) -> Option<Layout>
    requires held { ty.0 < length types.now.trees }
    requires simple { IsTrue (is_simple (type_at types.now.trees ty)) }
    ensures { HasLayout types.now (type_at types.now.trees ty) result }
{
    form_layout(types.get(ty))
}

/// The layout of the types that have this form.
fn form_layout(form: &TypeForm) -> Option<Layout>
    ensures { result ≡ form_layout form.now }
{
    match form {
        TypeForm::Int { bits, .. } => Some(integer_layout(*bits)),
        TypeForm::Bool => Some(Layout { size: 1, align: 1 }),
        TypeForm::Void => Some(Layout { size: 0, align: 1 }),
        TypeForm::ErrorSet { .. } | TypeForm::AnyError => Some(Layout { size: 2, align: 2 }),
        _ => None,
    }
}

/// The layout of the integer types of so many bits.
fn integer_layout(bits: u8) -> Layout
    ensures { result ≡ integer_layout bits }
{
    match bits {
        0 => Layout { size: 0, align: 1 },
        1..=8 => Layout { size: 1, align: 1 },
        9..=16 => Layout { size: 2, align: 2 },
        17..=32 => Layout { size: 4, align: 4 },
        _ => Layout { size: 8, align: 8 },
    }
}
