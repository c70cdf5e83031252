// The sections of a module in their order.
ghost use Rattle.std.specs.Prelude.{◌≡◌, ◌++◌, All, IfSome, OnOk, IfOk};
ghost use Rattle.zw_wasm.specs.Fits.{Fits, Fits32, FitsLimits, FitsSection, FitsFront, FitsBack};
ghost use Rattle.std.specs.List.{flat_map};
ghost use Rattle.zw_wasm.specs.Spelling.{table_type, list_section, start_section, front_sections, back_sections, spelling};

use super::{Encode, push_each, push_length, push_list_section, push_section, push_u32};
use crate::{Limits, Module};
use std::alloc::Global;
use zw_base::Oom;

/// The magic number and the version (5.5.15).
const HEADER: [u8; 8] = [0x00, 0x61, 0x73, 0x6D, 0x01, 0x00, 0x00, 0x00];

// The numbers of the sections (5.5.2).
const TYPE: u8 = 1;

const IMPORT: u8 = 2;

const FUNCTION: u8 = 3;

const TABLE: u8 = 4;

const MEMORY: u8 = 5;

const GLOBAL: u8 = 6;

const EXPORT: u8 = 7;

const START: u8 = 8;

const ELEMENT: u8 = 9;

const CODE: u8 = 10;

const DATA: u8 = 11;

/// The type of a table's items: functions (5.3.6).
const FUNCREF: u8 = 0x70;

fn push_table(out: &mut Vec<u8>, table: &Limits) -> Result<(), Oom>
    ensures spelled { OnOk result (out.new.items ≡ out.old.items ++ table_type table.now) }
    ensures fit { OnOk result (FitsLimits table.now) }
{
    out.push(FUNCREF)?;
    table.encode(out)?;
    Ok(())
}

fn push_tables(out: &mut Vec<u8>, tables: &[Limits]) -> Result<(), Oom>
    ensures spelled { OnOk result (out.new.items ≡ out.old.items ++ flat_map table_type tables.now) }
    ensures fit { OnOk result (All FitsLimits tables.now) }
{
    for table in tables {
        push_table(out, table)?;
    }
    Ok(())
}

fn push_table_section(out: &mut Vec<u8>, tables: &[Limits]) -> Result<(), Oom>
    ensures spelled { OnOk result (out.new.items ≡ out.old.items ++ list_section 4 table_type tables.now) }
    ensures fit { OnOk result (FitsSection FitsLimits table_type tables.now) }
{
    if tables.is_empty() {
        return Ok(());
    }
    let mut content = Vec::new(*out.allocator());
    push_length(&mut content, tables.len())?;
    push_tables(&mut content, tables)?;
    push_section(out, TABLE, &content)
}

fn push_start_section(out: &mut Vec<u8>, start: Option<u32>) -> Result<(), Oom>
    ensures spelled { OnOk result (out.new.items ≡ out.old.items ++ start_section start) }
    ensures fit { OnOk result (IfSome start Fits32) }
{
    if let Some(index) = start {
        let mut content = Vec::new(*out.allocator());
        push_u32(&mut content, index)?;
        push_section(out, START, &content)?;
    }
    Ok(())
}

#[tactic(auto, unfolding(crate::specs::Spelling::front_sections))]
fn push_front_sections(out: &mut Vec<u8>, m: &Module) -> Result<(), Oom>
    ensures spelled { OnOk result (out.new.items ≡ out.old.items ++ front_sections m.now) }
    ensures fit { OnOk result (FitsFront m.now) }
{
    push_list_section(out, TYPE, m.types.as_slice())?;
    push_list_section(out, IMPORT, m.imports.as_slice())?;
    push_list_section(out, FUNCTION, m.funcs.as_slice())?;
    push_table_section(out, m.tables.as_slice())?;
    push_list_section(out, MEMORY, m.memories.as_slice())?;
    push_list_section(out, GLOBAL, m.globals.as_slice())?;
    push_list_section(out, EXPORT, m.exports.as_slice())?;
    Ok(())
}

#[tactic(auto, unfolding(crate::specs::Spelling::back_sections))]
fn push_back_sections(out: &mut Vec<u8>, m: &Module) -> Result<(), Oom>
    ensures spelled { OnOk result (out.new.items ≡ out.old.items ++ back_sections m.now) }
    ensures fit { OnOk result (FitsBack m.now) }
{
    push_start_section(out, m.start)?;
    push_list_section(out, ELEMENT, m.elements.as_slice())?;
    push_list_section(out, CODE, m.codes.as_slice())?;
    push_list_section(out, DATA, m.datas.as_slice())?;
    Ok(())
}

/// All bytes of a module.
#[tactic(auto, unfolding(crate::specs::Spelling::spelling))]
pub fn module_bytes(alloc: Global, m: &Module) -> Result<Vec<u8>, Oom>
    ensures spelled { IfOk result (λ bytes. bytes.items ≡ spelling m.now) }
    ensures fit { OnOk result (Fits m.now) }
{
    let mut out = Vec::new(alloc);
    out.extend_from_slice(&HEADER)?;
    push_front_sections(&mut out, m)?;
    push_back_sections(&mut out, m)?;
    Ok(out)
}
