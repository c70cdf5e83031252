// The layout of a type from the layouts of its parts. A size of more than 2^127 bytes is kept as 2^127.
ghost use Rattle.std.specs.Prelude.{◌≡◌, ◌≤◌, ◌^◌};
ghost use Rattle.zw_types.specs.Sizes.{integer_layout, round_up, followed, overlaid, rounded, array_layout, optional_layout, error_union_layout, hidden_tag};
ghost use Rattle.zw_types.specs.KeptLayouts.{IsAlignment, IsBounded, bounded};

/// How many bytes a value takes, and the alignment: it begins at a multiple of `align` bytes.
#[derive(Clone, Copy, Debug, PartialEq, Eq)]
pub struct Layout {
    pub size: u128,
    pub align: u32,
}

/// What stands for more bytes than that: 2^127.
const MOST: u128 = 1 << 127;

/// The layout of the integer types of so many bits.
pub(crate) fn integer_layout(bits: u8) -> Layout
    ensures { result ≡ integer_layout bits }
{
    match bits {
        0 => Layout { size: 0, align: 1 },
        1..=8 => Layout { size: 1, align: 1 },
        9..=16 => Layout { size: 2, align: 2 },
        17..=32 => Layout { size: 4, align: 4 },
        _ => Layout { size: 8, align: 8 },
    }
}

/// The hidden tag of a bare union with so many fields.
pub(crate) fn hidden_tag(fields: u64) -> Layout
    ensures { result ≡ hidden_tag fields }
{
    match fields {
        0 | 1 => Layout { size: 0, align: 1 },
        2..=0x100 => Layout { size: 1, align: 1 },
        0x101..=0x1_0000 => Layout { size: 2, align: 2 },
        0x1_0001..=0x1_0000_0000 => Layout { size: 4, align: 4 },
        _ => Layout { size: 8, align: 8 },
    }
}

/// A part behind what is there, at its alignment.
pub(crate) fn followed(before: Layout, part: Layout) -> Layout
    requires before { IsBounded before }
    requires part { IsBounded part }
    ensures { result ≡ bounded (followed before part) }
{
    let begin = round_up(before.size, part.align);
    Layout {
        size: begin.saturating_add(part.size).min(MOST),
        align: before.align.max(part.align),
    }
}

/// A part over what is there.
pub(crate) fn overlaid(before: Layout, part: Layout) -> Layout
    requires before { IsBounded before }
    requires part { IsBounded part }
    ensures { result ≡ bounded (overlaid before part) }
{
    Layout {
        size: before.size.max(part.size),
        align: before.align.max(part.align),
    }
}

/// The layout, rounded up to its alignment.
pub(crate) fn rounded(layout: Layout) -> Layout
    requires { IsBounded layout }
    ensures { result ≡ bounded (rounded layout) }
{
    Layout {
        size: round_up(layout.size, layout.align).min(MOST),
        align: layout.align,
    }
}

/// The least multiple of an alignment that isn't below a number.
fn round_up(size: u128, align: u32) -> u128
    requires most { size ≤ 2 ^ 127 }
    requires align { IsAlignment align }
    ensures { result ≡ round_up size align }
{
    let align = u128::from(align);
    (size + (align - 1)) / align * align
}

/// So many elements, one behind the other.
pub(crate) fn array_layout(count: u128, of: Layout) -> Layout
    requires { IsBounded of }
    ensures { result ≡ bounded (array_layout count of) }
{
    Layout {
        size: count.saturating_mul(of.size).min(MOST),
        align: of.align,
    }
}

/// A payload, and a byte that tells whether it is there.
pub(crate) fn optional_layout(payload: Layout) -> Layout
    requires { IsBounded payload }
    ensures { result ≡ bounded (optional_layout payload) }
{
    rounded(followed(payload, Layout { size: 1, align: 1 }))
}

/// A payload, and the code of an error.
pub(crate) fn error_union_layout(payload: Layout) -> Layout
    requires { IsBounded payload }
    ensures { result ≡ bounded (error_union_layout payload) }
{
    rounded(followed(payload, Layout { size: 2, align: 2 }))
}
