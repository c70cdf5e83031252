// Rows of the bytes of modules: what reading them gives, and what is written of the module that they spell.
ghost use Rattle.std.specs.Prelude.{◌<◌, ◌^◌, length};

use std::alloc::Global;
use zw_base::Oom;
use zw_outside::MemSink;
use zw_rows_base::{Field, Mistake, Problem, Report, hex_bytes};
use zw_wasm::write;
use zw_wasm_read::{ReadErr, read};

/// More bytes than any row has.
const LIMIT: usize = 1_000_000;

/// `reads NAME`: lines `HEX = read`, or `HEX = BYTE CAUSE` where the bytes are no module: where reading stops, and why.
pub fn check_reads(alloc: Global, fields: &[Field<'_>]) -> Result<Report, Mistake> {
    let mut report = Report::new(alloc);
    for field in fields {
        let line = field.line;
        let bytes = hex_bytes(alloc, line, line.word)?;
        if bytes.len() > LIMIT {
            return Err(field.wrong(Problem::Refused));
        }
        let came = end_of_reading(alloc, &bytes)?;
        report.compare(line.word, came.as_bytes(), line.rest.as_bytes())?;
    }
    Ok(report)
}

/// How reading these bytes ends, as a row has it.
fn end_of_reading(alloc: Global, bytes: &[u8]) -> Result<String, Oom>
    requires { length bytes.now < 2 ^ 32 }
{
    match read(alloc, bytes) {
        Ok(_) => String::from_str(alloc, "= read"),
        Err(ReadErr::Bad { at, code }) => format!(in alloc; "= {at} {code:?}"),
        Err(ReadErr::Oom) => Err(Oom),
    }
}

/// `written NAME`: lines `HEX = HEX`: the bytes of a module, and those that are written of it.
pub fn check_written(alloc: Global, fields: &[Field<'_>]) -> Result<Report, Mistake> {
    let mut report = Report::new(alloc);
    for field in fields {
        let line = field.line;
        let Some(wanted) = line.rest.strip_prefix("= ") else {
            return Err(field.wrong(Problem::MissingWord));
        };
        let bytes = hex_bytes(alloc, line, line.word)?;
        if bytes.len() > LIMIT {
            return Err(field.wrong(Problem::Refused));
        }
        let came = written(alloc, &bytes)?;
        let wanted = hex_bytes(alloc, line, wanted)?;
        report.compare(line.word, &came, &wanted)?;
    }
    Ok(report)
}

/// What is written of the module that these bytes spell; nothing where they spell none.
fn written(alloc: Global, bytes: &[u8]) -> Result<Vec<u8>, Oom>
    requires { length bytes.now < 2 ^ 32 }
{
    let mut sink = MemSink::new(alloc, Vec::new(alloc), u64::MAX);
    if let Ok(module) = read(alloc, bytes) {
        let _ = write(alloc, &module, &mut sink);
    }
    sink.taken().to_vec(alloc)
}
