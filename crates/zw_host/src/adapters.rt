// The files and streams of the system, as the compiler sees them. These adapters are the trusted edge: they tell nothing
// of what a stream holds, and count each error of the system that they answer as a failure.
ghost use Rattle.std.specs.Prelude.{◌≡◌, ◌≤◌, [], vec_len, IfOk};

use sqlite_items::Items;
use std::alloc::Global;
use std::fs::File;
use std::io;
use std::io::{ErrorKind, Read};
use std::rt::Files;
use zw_base::{Answer, Failed, Handed, LoadErr, PutErr, Sink, Source, Tree, Word, hand_over};

/// The files of the system.
#[derive(Drop)]
pub struct HostTree<'a, R: Files> {
    files: &'a R,
    alloc: Global,
    handed: Items<Handed>,
    faults: u64,
}

impl<'a, R: Files> HostTree<'a, R> {
    /// All files, of which none was handed over.
    pub fn new(files: &'a R, alloc: Global) -> HostTree<'a, R>
        ensures loaded { result.handed ≡ [] }
        ensures faults { result.faults ≡ 0 }
    {
        HostTree {
            files,
            alloc,
            handed: Items::new(alloc),
            faults: 0,
        }
    }
}

impl<R: Files> Tree for HostTree<'_, R> {
    ghost loaded = { λ t. t.handed };

    ghost faults = { λ t. t.faults };

    fn load(&mut self, alloc: Global, path: &Word, limit: u64) -> Result<Vec<u8>, LoadErr> {
        match read_file(self.files, alloc, path, limit) {
            Ok(bytes) => {
                let told = Items::from_slice(self.alloc, &bytes)?;
                hand_over(self.alloc, &mut self.handed, path, Answer::Bytes(told))?;
                Ok(bytes)
            }
            Err(LoadErr::Absent) => {
                hand_over(self.alloc, &mut self.handed, path, Answer::Absent)?;
                Err(LoadErr::Absent)
            }
            Err(LoadErr::TooLong) => {
                hand_over(self.alloc, &mut self.handed, path, Answer::TooLong(limit))?;
                Err(LoadErr::TooLong)
            }
            Err(LoadErr::Failed) => {
                self.faults = self.faults.saturating_add(1);
                Err(LoadErr::Failed)
            }
            Err(LoadErr::Oom) => Err(LoadErr::Oom),
        }
    }
}

/// The bytes of a file, at most `limit` of them. A path that is no text names no file that can be opened.
fn read_file<R: Files>(
    files: &R,
    alloc: Global,
    path: &Word,
    limit: u64,
) -> Result<Vec<u8>, LoadErr>
    ensures { IfOk result (λ bytes. vec_len bytes ≤ limit) }
{
    let Ok(name) = str::from_utf8(path.bytes()) else {
        return Err(LoadErr::Failed);
    };
    let file = File::open(files, name).map_err(|e| load_error(&e))?;
    let mut bytes = Vec::new(alloc);
    let read = file.take(limit.saturating_add(1)).read_to_end(&mut bytes);
    read.map_err(|e| load_error(&e))?;
    if bytes.len() as u64 > limit {
        return Err(LoadErr::TooLong);
    }
    Ok(bytes)
}

/// What an error of the system is to a load.
fn load_error(e: &io::Error) -> LoadErr {
    match e.kind() {
        ErrorKind::NotFound | ErrorKind::NotADirectory => LoadErr::Absent,
        ErrorKind::OutOfMemory => LoadErr::Oom,
        _ => LoadErr::Failed,
    }
}

/// The standard input.
#[derive(Drop)]
pub struct HostSource<R: Input> {
    reader: R::Reader,
    faults: u64,
}

impl<R: Input> HostSource<R> {
    /// Nothing was read yet.
    pub fn new(rt: &R) -> HostSource<R>
        ensures { result.faults ≡ 0 }
    {
        HostSource {
            reader: rt.reader(),
            faults: 0,
        }
    }
}

impl<R: Input> Source for HostSource<R> {
    ghost use Rattle.std.specs.Prelude.{None};

    ghost left = { λ s. None };

    ghost faults = { λ s. s.faults };

    fn read(&mut self, buf: &mut [u8]) -> Result<usize, Failed> {
        match self.reader.read(buf) {
            Ok(n) => Ok(n),
            Err(_) => {
                self.faults = self.faults.saturating_add(1);
                Err(Failed)
            }
        }
    }
}

/// The standard output.
#[derive(Drop)]
pub struct HostOut<'a, R: Print> {
    rt: &'a R,
    faults: u64,
}

impl<'a, R: Print> HostOut<'a, R> {
    /// Nothing was written yet.
    pub fn new(rt: &'a R) -> HostOut<'a, R>
        ensures { result.faults ≡ 0 }
    {
        HostOut { rt, faults: 0 }
    }
}

impl<R: Print> Sink for HostOut<'_, R> {
    ghost use Rattle.std.specs.Prelude.{None};

    ghost taken = { λ s. None };

    ghost faults = { λ s. s.faults };

    fn put(&mut self, bytes: &[u8]) -> Result<usize, PutErr> {
        match self.rt.write_some(bytes) {
            Ok(n) if n > 0 || bytes.is_empty() => Ok(n),
            _ => {
                self.faults = self.faults.saturating_add(1);
                Err(PutErr::Failed)
            }
        }
    }
}

/// The standard error output, which takes text.
#[derive(Drop)]
pub struct HostDiag<'a, R: Eprint> {
    rt: &'a R,
    faults: u64,
}

impl<'a, R: Eprint> HostDiag<'a, R> {
    /// Nothing was written yet.
    pub fn new(rt: &'a R) -> HostDiag<'a, R>
        ensures { result.faults ≡ 0 }
    {
        HostDiag { rt, faults: 0 }
    }
}

impl<R: Eprint> Sink for HostDiag<'_, R> {
    ghost use Rattle.std.specs.Prelude.{None};

    ghost taken = { λ s. None };

    ghost faults = { λ s. s.faults };

    fn put(&mut self, bytes: &[u8]) -> Result<usize, PutErr> {
        if write_text(self.rt, bytes) {
            return Ok(bytes.len());
        }
        self.faults = self.faults.saturating_add(1);
        Err(PutErr::Failed)
    }
}

/// Writes a text, and says whether that was done.
fn write_text<R: Eprint>(rt: &R, bytes: &[u8]) -> bool {
    match str::from_utf8(bytes) {
        Ok(text) => rt.eprint(text).is_ok(),
        Err(_) => false,
    }
}
