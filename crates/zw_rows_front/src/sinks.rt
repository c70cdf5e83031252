// Rows of an output in memory, piece by piece.
use std::alloc::Global;
use zw_base::{PutErr, Sink};
use zw_outside::MemSink;
use zw_rows_base::{Field, Line, Mistake, Problem, Report, natural, small, smalls, unescaped};

/// `sink NAME`: `cap N` and `failing-puts N..` begin anew with room for so many bytes and with these puts failing; `reserve N` makes room for so many bytes;
/// `put TEXT`, a tab and how many bytes of the text were taken, or `failed`; `taken TEXT` is all that was taken so far. Texts have escapes.
pub fn check_sink(alloc: Global, fields: &[Field<'_>]) -> Result<Report, Mistake> {
    let mut report = Report::new(alloc);
    let mut cap = u64::MAX;
    let mut sink = MemSink::new(alloc, Vec::new(alloc), cap);
    for field in fields {
        let line = field.line;
        match line.word {
            "cap" => {
                cap = natural(line, line.rest)?;
                sink = MemSink::new(alloc, Vec::new(alloc), cap);
            }
            "failing-puts" => sink = MemSink::new(alloc, smalls(alloc, line, line.rest)?, cap),
            "reserve" => sink.reserve(small(line, line.rest)? as usize)?,
            "put" => check_put(alloc, line, &mut sink, &mut report)?,
            "taken" => {
                let wanted = unescaped(alloc, line, line.rest)?;
                report.compare("taken", sink.taken(), &wanted)?;
            }
            _ => return Err(field.wrong(Problem::UnknownWord)),
        }
    }
    Ok(report)
}

/// Compares what a put takes with what is wanted.
fn check_put(
    alloc: Global,
    line: Line<'_>,
    sink: &mut MemSink,
    report: &mut Report,
) -> Result<(), Mistake> {
    let Some((text, wanted)) = line.rest.split_once('\t') else {
        return Err(Mistake::Wrong(line.number, Problem::MissingWord));
    };
    let bytes = unescaped(alloc, line, text)?;
    let came = match sink.put(&bytes) {
        Ok(taken) => format!(in alloc; "{taken}")?,
        Err(PutErr::Failed) => String::from_str(alloc, "failed")?,
        Err(PutErr::Oom) => return Err(Mistake::Oom),
    };
    report.compare(text, came.as_bytes(), wanted.as_bytes())?;
    Ok(())
}
