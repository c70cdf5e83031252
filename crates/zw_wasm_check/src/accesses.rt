// What loads and stores read and write, by their kinds (2.4.4).
ghost use Rattle.std.specs.Prelude.{◌≡◌};
ghost use Rattle.zw_wasm.specs.Accesses.{load_type, load_width, natural_alignment, store_type, store_width};

use zw_wasm::{LoadKind, StoreKind, ValType};

/// The type of the value that a load gives.
pub fn load_type(kind: LoadKind) -> ValType
    ensures { result ≡ load_type kind }
{
    match kind {
        LoadKind::I32 => ValType::I32,
        LoadKind::I32S8 => ValType::I32,
        LoadKind::I32U8 => ValType::I32,
        LoadKind::I32S16 => ValType::I32,
        LoadKind::I32U16 => ValType::I32,
        LoadKind::I64 => ValType::I64,
        LoadKind::I64S8 => ValType::I64,
        LoadKind::I64U8 => ValType::I64,
        LoadKind::I64S16 => ValType::I64,
        LoadKind::I64U16 => ValType::I64,
        LoadKind::I64S32 => ValType::I64,
        LoadKind::I64U32 => ValType::I64,
    }
}

/// The exponent of a load's natural alignment to the base 2.
pub fn load_alignment(kind: LoadKind) -> u32
    ensures { result ≡ natural_alignment (load_width kind) }
{
    match kind {
        LoadKind::I32S8 => 0,
        LoadKind::I32U8 => 0,
        LoadKind::I64S8 => 0,
        LoadKind::I64U8 => 0,
        LoadKind::I32S16 => 1,
        LoadKind::I32U16 => 1,
        LoadKind::I64S16 => 1,
        LoadKind::I64U16 => 1,
        LoadKind::I32 => 2,
        LoadKind::I64S32 => 2,
        LoadKind::I64U32 => 2,
        LoadKind::I64 => 3,
    }
}

/// The type of the value that a store takes.
pub fn store_type(kind: StoreKind) -> ValType
    ensures { result ≡ store_type kind }
{
    match kind {
        StoreKind::I32 => ValType::I32,
        StoreKind::I32Low8 => ValType::I32,
        StoreKind::I32Low16 => ValType::I32,
        StoreKind::I64 => ValType::I64,
        StoreKind::I64Low8 => ValType::I64,
        StoreKind::I64Low16 => ValType::I64,
        StoreKind::I64Low32 => ValType::I64,
    }
}

/// The exponent of a store's natural alignment to the base 2.
pub fn store_alignment(kind: StoreKind) -> u32
    ensures { result ≡ natural_alignment (store_width kind) }
{
    match kind {
        StoreKind::I32Low8 => 0,
        StoreKind::I64Low8 => 0,
        StoreKind::I32Low16 => 1,
        StoreKind::I64Low16 => 1,
        StoreKind::I32 => 2,
        StoreKind::I64Low32 => 2,
        StoreKind::I64 => 3,
    }
}
