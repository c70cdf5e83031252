// Rows of the whole call, over objects in memory: `zig`, and `build` and `stops` for the file `a.zig` alone.
use std::alloc::Global;
use zw_base::{Oom, Word};
use zw_drive::zig;
use zw_outside::{MemSink, MemSource, MemTree};
use zw_rows_base::{Case, Field, Mistake, Problem, Report, case_of, natural, smalls, word, words};

/// A file of the tree.
#[derive(Drop)]
struct File {
    path: Word,
    bytes: Vec<u8>,
}

/// What a step is run on.
#[derive(Drop)]
struct Given {
    words: Vec<Word>,
    files: Vec<File>,
    input: Vec<u8>,
    failing_loads: Vec<u32>,
    failing_reads: Vec<u32>,
    failing_puts: Vec<u32>,
    failing_lines: Vec<u32>,
    cap: u64,
}

/// What is to come of a step. Where the paths of the loaded files or what is left of the input aren't told, any do.
#[derive(Drop)]
struct Wanted {
    status: u64,
    out: Vec<u8>,
    /// Whether the output may have other bytes before these.
    is_end: bool,
    diag: Vec<u8>,
    loaded: Option<Vec<Word>>,
    left: Option<Vec<u8>>,
}

/// A step: a call, and what is to come of it.
#[derive(Drop)]
struct Step {
    given: Given,
    wanted: Wanted,
}

/// `zig NAME`: steps, of which each but the first begins with `then PATH`, the file that the output before becomes.
pub fn check_commands(alloc: Global, fields: &[Field<'_>]) -> Result<Report, Mistake> {
    let mut report = Report::new(alloc);
    let mut step = Step::new(alloc);
    for field in fields {
        if field.line.word == "then" {
            let out = step.check(alloc, &mut report)?;
            step = Step::new(alloc);
            let path = word(alloc, field.line, field.line.rest)?;
            step.given.files.push(File { path, bytes: out })?;
        } else {
            step.set(alloc, field)?;
        }
    }
    step.check(alloc, &mut report)?;
    Ok(report)
}

/// `build NAME` and a text: what building it as the file `a.zig` is to give.
pub fn check_build(
    alloc: Global,
    head: &Field<'_>,
    fields: &[Field<'_>],
) -> Result<Report, Mistake> {
    let mut report = Report::new(alloc);
    let mut step = Step::of_text(alloc, &head.bytes)?;
    for field in fields {
        if field.line.word == "stop" {
            step.want_stop(alloc, field.line.rest)?;
        } else {
            step.set(alloc, field)?;
        }
    }
    step.check(alloc, &mut report)?;
    Ok(report)
}

/// `stops NAME`: lines `of TEXT`, a tab, and the stop of building the text as the file `a.zig`.
pub fn check_stops(alloc: Global, fields: &[Field<'_>]) -> Result<Report, Mistake> {
    let mut report = Report::new(alloc);
    for field in fields {
        let case = case_of(alloc, field.line)?;
        check_stop(alloc, &case, &mut report)?;
    }
    Ok(report)
}

/// Compares the stop of building a text with what is wanted.
fn check_stop(alloc: Global, case: &Case<'_>, report: &mut Report) -> Result<(), Oom> {
    let mut step = Step::of_text(alloc, &case.bytes)?;
    step.want_stop(alloc, case.wanted)?;
    let told = report.text().len();
    step.check(alloc, report)?;
    if report.text().len() > told {
        report.tell_text(case.text)?;
    }
    Ok(())
}

impl Step {
    /// No words and no files, an output with room for all, and status 0 without a line.
    fn new(alloc: Global) -> Step {
        Step {
            given: Given {
                words: Vec::new(alloc),
                files: Vec::new(alloc),
                input: Vec::new(alloc),
                failing_loads: Vec::new(alloc),
                failing_reads: Vec::new(alloc),
                failing_puts: Vec::new(alloc),
                failing_lines: Vec::new(alloc),
                cap: u64::MAX,
            },
            wanted: Wanted {
                status: 0,
                out: Vec::new(alloc),
                is_end: false,
                diag: Vec::new(alloc),
                loaded: None,
                left: None,
            },
        }
    }

    /// Building a text as the file `a.zig`.
    fn of_text(alloc: Global, text: &[u8]) -> Result<Step, Oom> {
        let mut step = Step::new(alloc);
        step.given.build(alloc, text)?;
        Ok(step)
    }

    /// Wants status 1 and this stop of the file `a.zig`.
    fn want_stop(&mut self, alloc: Global, stop: &str) -> Result<(), Oom> {
        let line = format!(in alloc; "a.zig:{stop}\n")?;
        self.wanted.status = 1;
        self.wanted.diag = line.as_bytes().to_vec(alloc)?;
        Ok(())
    }

    /// Sets what a line says.
    fn set(&mut self, alloc: Global, field: &Field<'_>) -> Result<(), Mistake> {
        match field.line.word {
            "status" => self.wanted.status = natural(field.line, field.line.rest)?,
            "out" => self.wanted.out = field.bytes.clone()?,
            "ends" => {
                self.wanted.out = field.bytes.clone()?;
                self.wanted.is_end = true;
            }
            "diag" => self.wanted.diag = field.bytes.clone()?,
            "loaded" => self.wanted.loaded = Some(words(alloc, field.line)?),
            "left" => self.wanted.left = Some(field.bytes.clone()?),
            _ => self.given.set(alloc, field)?,
        }
        Ok(())
    }

    /// Makes the call, compares what came, and answers the output.
    fn check(&self, alloc: Global, report: &mut Report) -> Result<Vec<u8>, Oom> {
        let mut tree = self.given.tree(alloc)?;
        let input = self.given.input.clone()?;
        let mut input = MemSource::new(input, self.given.failing_reads.clone()?);
        let mut out = MemSink::new(alloc, self.given.failing_puts.clone()?, self.given.cap);
        let mut diag = MemSink::new(alloc, self.given.failing_lines.clone()?, u64::MAX);
        let status = zig(
            alloc,
            &self.given.words,
            &mut tree,
            &mut input,
            &mut out,
            &mut diag,
        );
        self.wanted
            .compare_text(alloc, report, status, out.taken(), diag.taken())?;
        self.wanted.compare_rest(alloc, report, &tree, &input)?;
        out.taken().to_vec(alloc)
    }
}

impl Given {
    /// Adds the words `build a.zig`, and a text as the file `a.zig`.
    fn build(&mut self, alloc: Global, text: &[u8]) -> Result<(), Oom> {
        self.words.push(Word::copy(alloc, b"build")?)?;
        self.words.push(Word::copy(alloc, b"a.zig")?)?;
        let path = Word::copy(alloc, b"a.zig")?;
        let bytes = text.to_vec(alloc)?;
        self.files.push(File { path, bytes })?;
        Ok(())
    }

    /// Sets what a line says.
    fn set(&mut self, alloc: Global, field: &Field<'_>) -> Result<(), Mistake> {
        let line = field.line;
        match line.word {
            "words" => self.words = words(alloc, line)?,
            "file" => self.files.push(File {
                path: word(alloc, line, line.rest)?,
                bytes: field.bytes.clone()?,
            })?,
            "input" => self.input = field.bytes.clone()?,
            "cap" => self.cap = natural(line, line.rest)?,
            "failing-loads" => self.failing_loads = smalls(alloc, line, line.rest)?,
            "failing-reads" => self.failing_reads = smalls(alloc, line, line.rest)?,
            "failing-puts" => self.failing_puts = smalls(alloc, line, line.rest)?,
            "failing-lines" => self.failing_lines = smalls(alloc, line, line.rest)?,
            _ => return Err(field.wrong(Problem::UnknownWord)),
        }
        Ok(())
    }

    /// The tree of the files.
    fn tree(&self, alloc: Global) -> Result<MemTree, Oom> {
        let mut tree = MemTree::new(alloc, self.failing_loads.clone()?);
        for file in &self.files {
            tree.add(&file.path, &file.bytes)?;
        }
        Ok(tree)
    }
}

impl Wanted {
    /// Compares the status, the output and the diagnostics.
    fn compare_text(
        &self,
        alloc: Global,
        report: &mut Report,
        status: u8,
        out: &[u8],
        diag: &[u8],
    ) -> Result<(), Oom> {
        let came = format!(in alloc; "{status}")?;
        let wanted = self.status;
        let wanted = format!(in alloc; "{wanted}")?;
        report.compare("status", came.as_bytes(), wanted.as_bytes())?;
        if self.is_end {
            report.compare_ends("output's end", out, &self.out)?;
        } else {
            report.compare("output", out, &self.out)?;
        }
        report.compare("diagnostics", diag, &self.diag)
    }

    /// Compares the files that were loaded, and what is left of the input.
    fn compare_rest(
        &self,
        alloc: Global,
        report: &mut Report,
        tree: &MemTree,
        input: &MemSource,
    ) -> Result<(), Oom> {
        if let Some(paths) = &self.loaded {
            let mut came = Vec::new(alloc);
            for handed in tree.handed() {
                add_path(&mut came, &handed.path)?;
            }
            let mut wanted = Vec::new(alloc);
            for path in paths {
                add_path(&mut wanted, path)?;
            }
            report.compare("loaded", &came, &wanted)?;
        }
        if let Some(left) = &self.left {
            report.compare("left", input.left(), left)?;
        }
        Ok(())
    }
}

/// Adds a path and a blank.
fn add_path(list: &mut Vec<u8>, path: &Word) -> Result<(), Oom> {
    list.extend_from_slice(path.bytes())?;
    list.push(b' ')?;
    Ok(())
}
