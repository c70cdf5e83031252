// Rows of numbers as words of the command line spell them.
use std::alloc::Global;
use zw_base::read_number;
use zw_rows_base::{Field, Mistake, Problem, Report, unescaped};

/// `decimals NAME`: lines `of TEXT`, a tab and the number that the text spells, or `none`. The text has escapes.
pub fn check_decimals(alloc: Global, fields: &[Field<'_>]) -> Result<Report, Mistake> {
    let mut report = Report::new(alloc);
    for field in fields {
        let line = field.line;
        if line.word != "of" {
            return Err(field.wrong(Problem::UnknownWord));
        }
        let Some((text, wanted)) = line.rest.split_once('\t') else {
            return Err(field.wrong(Problem::MissingWord));
        };
        let bytes = unescaped(alloc, line, text)?;
        let came = match read_number(&bytes) {
            Some(number) => format!(in alloc; "{number}")?,
            None => String::from_str(alloc, "none")?,
        };
        report.compare(text, came.as_bytes(), wanted.as_bytes())?;
    }
    Ok(report)
}
