// Rows of an input in memory, piece by piece.
use std::alloc::Global;
use zw_base::Source;
use zw_outside::MemSource;
use zw_rows_base::{Field, Mistake, Problem, Report, small, smalls};

/// `source NAME` and its bytes: `failing-reads N..` begins anew, with these reads failing, and lines `read N = HEX`, `read N = none` or
/// `read N = failed` are the reads into a buffer of N bytes, one after another.
pub fn check_source(
    alloc: Global,
    head: &Field<'_>,
    fields: &[Field<'_>],
) -> Result<Report, Mistake> {
    let mut report = Report::new(alloc);
    let mut source = MemSource::new(head.bytes.clone()?, Vec::new(alloc));
    for field in fields {
        let line = field.line;
        match line.word {
            "failing-reads" => {
                let failing = smalls(alloc, line, line.rest)?;
                source = MemSource::new(head.bytes.clone()?, failing);
            }
            "read" => check_read(alloc, field, &mut source, &mut report)?,
            _ => return Err(field.wrong(Problem::UnknownWord)),
        }
    }
    Ok(report)
}

/// Compares a read with what is wanted.
fn check_read(
    alloc: Global,
    field: &Field<'_>,
    source: &mut MemSource,
    report: &mut Report,
) -> Result<(), Mistake> {
    let Some((count, wanted)) = field.line.rest.split_once(" = ") else {
        return Err(field.wrong(Problem::MissingWord));
    };
    let mut buffer = vec![in alloc; 0u8; small(field.line, count)? as usize]?;
    let came = match source.read(&mut buffer) {
        Ok(0) => String::from_str(alloc, "none")?,
        Ok(read) => hex::encode(alloc, &buffer[..read])?,
        Err(_) => String::from_str(alloc, "failed")?,
    };
    report.compare("read", came.as_bytes(), wanted.as_bytes())?;
    Ok(())
}
