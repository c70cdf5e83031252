// The spelling of each record of a module.
ghost use Rattle.zw_wasm.specs.Fits.{Fits32, FitsValueType, FitsFunctionType, FitsImport, FitsLimits, FitsGlobal, FitsExport, FitsElement, FitsRun, FitsCode, FitsData};
ghost use Rattle.zw_leb.specs.Leb.{unsigned};
ghost use Rattle.zw_wasm.specs.Spelling.{value_type, function_type, limits, global, function_import, export, element, local_run, code, data_segment};

use super::{Encode, push_bytes, push_each, push_u32, push_vector};
use crate::{
    CodeBody, DataSegment, Element, ExportDef, FuncImport, FuncType, GlobalDef, Limits, ValType,
};
use zw_base::Oom;

impl Encode for u32 {
    ghost bytes = { unsigned };

    ghost fits = { Fits32 };

    fn encode(&self, out: &mut Vec<u8>) -> Result<(), Oom> {
        push_u32(out, *self)
    }
}

impl Encode for ValType {
    ghost bytes = { value_type };

    ghost fits = { FitsValueType };

    fn encode(&self, out: &mut Vec<u8>) -> Result<(), Oom> {
        let code = match self {
            ValType::I32 => 0x7F,
            ValType::I64 => 0x7E,
        };
        out.push(code)?;
        Ok(())
    }
}

impl Encode for FuncType {
    ghost bytes = { function_type };

    ghost fits = { FitsFunctionType };

    fn encode(&self, out: &mut Vec<u8>) -> Result<(), Oom> {
        out.push(0x60)?;
        push_vector(out, self.params.as_slice())?;
        match &self.result {
            None => out.push(0)?,
            Some(ty) => {
                out.push(1)?;
                ty.encode(out)?;
            }
        }
        Ok(())
    }
}

impl Encode for FuncImport {
    ghost bytes = { function_import };

    ghost fits = { FitsImport };

    fn encode(&self, out: &mut Vec<u8>) -> Result<(), Oom> {
        push_bytes(out, self.module.as_slice())?;
        push_bytes(out, self.field.as_slice())?;
        out.push(ExportDef::FUNC)?;
        push_u32(out, self.ty)?;
        Ok(())
    }
}

impl Encode for Limits {
    ghost bytes = { limits };

    ghost fits = { FitsLimits };

    fn encode(&self, out: &mut Vec<u8>) -> Result<(), Oom> {
        match self.greatest {
            None => {
                out.push(0)?;
                push_u32(out, self.least)?;
            }
            Some(greatest) => {
                out.push(1)?;
                push_u32(out, self.least)?;
                push_u32(out, greatest)?;
            }
        }
        Ok(())
    }
}

impl Encode for GlobalDef {
    ghost bytes = { global };

    ghost fits = { FitsGlobal };

    fn encode(&self, out: &mut Vec<u8>) -> Result<(), Oom> {
        self.ty.encode(out)?;
        out.push(if self.mutable { 1 } else { 0 })?;
        push_each(out, self.init.as_slice())?;
        Ok(())
    }
}

impl Encode for ExportDef {
    ghost bytes = { export };

    ghost fits = { FitsExport };

    fn encode(&self, out: &mut Vec<u8>) -> Result<(), Oom> {
        push_bytes(out, self.name.as_slice())?;
        out.push(self.kind)?;
        push_u32(out, self.index)?;
        Ok(())
    }
}

impl Encode for Element {
    ghost bytes = { element };

    ghost fits = { FitsElement };

    fn encode(&self, out: &mut Vec<u8>) -> Result<(), Oom> {
        push_u32(out, self.table)?;
        push_each(out, self.at.as_slice())?;
        push_vector(out, self.funcs.as_slice())?;
        Ok(())
    }
}

impl Encode for (u32, ValType) {
    ghost bytes = { local_run };

    ghost fits = { FitsRun };

    fn encode(&self, out: &mut Vec<u8>) -> Result<(), Oom> {
        push_u32(out, self.0)?;
        self.1.encode(out)?;
        Ok(())
    }
}

impl Encode for CodeBody {
    ghost bytes = { code };

    ghost fits = { FitsCode };

    fn encode(&self, out: &mut Vec<u8>) -> Result<(), Oom> {
        let mut body = Vec::new(*out.allocator());
        push_vector(&mut body, self.locals.as_slice())?;
        push_each(&mut body, self.instrs.as_slice())?;
        push_bytes(out, &body)
    }
}

impl Encode for DataSegment {
    ghost bytes = { data_segment };

    ghost fits = { FitsData };

    fn encode(&self, out: &mut Vec<u8>) -> Result<(), Oom> {
        push_u32(out, self.memory)?;
        push_each(out, self.at.as_slice())?;
        push_bytes(out, self.bytes.as_slice())?;
        Ok(())
    }
}
