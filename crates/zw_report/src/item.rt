// What a host call shows and what a call returns, by type.
ghost use Rattle.std.specs.Prelude.{◌≡◌, IfOk, nat_eq, string_bytes};
ghost use Rattle.zw_report.specs.Lines.{number_text, value_text};
ghost use Rattle.zw_wasm.specs.Structure.{bits_of};

use std::alloc::Global;
use zw_base::Oom;
use zw_wasm::Num;

/// The declared type of what is printed.
#[derive(Clone, Copy, Debug, PartialEq, Eq)]
pub enum ItemTy {
    /// An integer of so many bits, 0 to 64, with or without a sign. The whole `i32` or `i64` that holds it is printed.
    Int { signed: bool, bits: u8 },
    /// A truth value, which is `false` exactly where its number is 0.
    Bool,
    /// The bytes that a pointer and a length show.
    Bytes,
    /// No value.
    Void,
}

/// A number as it is printed by its type; no text for a type that has no number.
pub fn value_text(alloc: Global, ty: ItemTy, number: Num) -> Result<String, Oom>
    ensures { IfOk result (λ text. string_bytes text ≡ value_text ty number) }
{
    match ty {
        ItemTy::Int { signed, .. } => number_text(alloc, signed, number),
        ItemTy::Bool => {
            let truth = !is_zero(number);
            format!(in alloc; "{truth}")
        }
        ItemTy::Bytes | ItemTy::Void => Ok(String::new(alloc)),
    }
}

/// A whole number, read with a sign or without.
fn number_text(alloc: Global, signed: bool, number: Num) -> Result<String, Oom>
    ensures { IfOk result (λ text. string_bytes text ≡ number_text signed number) }
{
    match number {
        Num::I32(bits) if signed => {
            let value = bits.cast_signed();
            format!(in alloc; "{value}")
        }
        Num::I64(bits) if signed => {
            let value = bits.cast_signed();
            format!(in alloc; "{value}")
        }
        Num::I32(bits) => format!(in alloc; "{bits}"),
        Num::I64(bits) => format!(in alloc; "{bits}"),
    }
}

fn is_zero(number: Num) -> bool
    ensures { result ≡ nat_eq (bits_of number) 0 }
{
    match number {
        Num::I32(bits) => bits == 0,
        Num::I64(bits) => bits == 0,
    }
}
