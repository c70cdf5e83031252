// The lines of a session. Each ends with LF.
ghost use Rattle.std.specs.Prelude.{◌≡◌, ◌++◌, ◌≤◌, IfOk, OnOk};
ghost use Rattle.std.specs.List.{flat_map};
ghost use Rattle.zw_report.specs.Lines.{AreTypesOf, HasLine, argument, begin, call_line, end_line, event_line, items, panic_line, result_line, word};

use crate::arg::{Arg, argument_text};
use crate::end::End;
use crate::item::{ItemTy, value_text};
use crate::names::{bytes_text, shown};
use crate::panics::{MESSAGE, cause_name};
use std::alloc::Global;
use zw_base::{Oom, Word};
use zw_wasm::Num;
use zw_wasm_run::Event;

/// The line before a call: `call NAME ARG..`.
pub fn call_line(alloc: Global, name: &Word, args: &[Arg]) -> Result<Vec<u8>, Oom>
    ensures { IfOk result (λ line. line.items ≡ call_line name.now args.now) }
{
    let mut line = begin(alloc, b"call", name)?;
    push_arguments(alloc, args, &mut line)?;
    line.push(b'\n')?;
    Ok(line)
}

/// The line of a host call: `host NAME ITEM..`. The types stand in the order of the parameters: one `Bytes` for each text that is
/// shown, and one `Int` or `Bool` for each number.
pub fn event_line(alloc: Global, name: &Word, tys: &[ItemTy], event: &Event) -> Result<Vec<u8>, Oom>
    requires { AreTypesOf tys.now event.now.args event.now.shown }
    ensures { IfOk result (λ line. line.items ≡ event_line name.now tys.now event.now) }
{
    let mut line = begin(alloc, b"host", name)?;
    push_items(alloc, tys, event, &mut line)?;
    line.push(b'\n')?;
    Ok(line)
}

/// The line of a call's end: `result V`, `panic N Cause` with the message of cause 18, `wants reply`, `steps ran out` or `trap`. A
/// cause is one from 1 to 19; a result is a number of type `Int` or `Bool`, or none of type `Void`.
pub fn end_line(alloc: Global, end: &End) -> Result<Vec<u8>, Oom>
    requires { HasLine end.now }
    ensures { IfOk result (λ line. line.items ≡ end_line end.now) }
{
    match end {
        End::Result { ty, num } => result_line(alloc, *ty, *num),
        End::Panic { cause, message } => panic_line(alloc, *cause, message.as_slice()),
        End::WantsReply => Vec::from_slice(alloc, b"wants reply\n"),
        End::StepsOut => Vec::from_slice(alloc, b"steps ran out\n"),
        End::Trap => Vec::from_slice(alloc, b"trap\n"),
    }
}

/// What a line begins with: its first word, and a name.
fn begin(alloc: Global, first: &[u8], name: &Word) -> Result<Vec<u8>, Oom>
    ensures { IfOk result (λ line. line.items ≡ begin first.now name.now) }
{
    let mut line = Vec::from_slice(alloc, first)?;
    push_word(shown(alloc, name.bytes())?.as_slice(), &mut line)?;
    Ok(line)
}

/// A word more, behind a blank.
fn push_word(text: &[u8], line: &mut Vec<u8>) -> Result<(), Oom>
    ensures { OnOk result (line.new.items ≡ line.old.items ++ word text.now) }
{
    line.push(b' ')?;
    line.extend_from_slice(text)?;
    Ok(())
}

fn push_arguments(alloc: Global, args: &[Arg], line: &mut Vec<u8>) -> Result<(), Oom>
    ensures { OnOk result (line.new.items ≡ line.old.items ++ flat_map argument args.now) }
{
    for arg in args {
        push_word(argument_text(alloc, *arg)?.as_bytes(), line)?;
    }
    Ok(())
}

fn push_items(alloc: Global, tys: &[ItemTy], event: &Event, line: &mut Vec<u8>) -> Result<(), Oom>
    ensures { OnOk result (line.new.items ≡ line.old.items ++ items tys.now event.now.args event.now.shown) }
{
    let mut left = tys;
    let mut numbers = event.args.as_slice();
    let mut texts = event.shown.as_slice();
    while let Some((ty, others)) = left.split_first() {
        if let ItemTy::Bytes = ty {
            let Some((text, rest)) = texts.split_first() else {
                return Ok(());
            };
            push_word(bytes_text(alloc, text.as_slice())?.as_slice(), line)?;
            texts = rest;
        } else {
            let Some((number, rest)) = numbers.split_first() else {
                return Ok(());
            };
            push_word(value_text(alloc, *ty, *number)?.as_bytes(), line)?;
            numbers = rest;
        }
        left = others;
    }
    Ok(())
}

fn result_line(alloc: Global, ty: ItemTy, number: Option<Num>) -> Result<Vec<u8>, Oom>
    ensures { IfOk result (λ line. line.items ≡ result_line ty number) }
{
    let Some(number) = number else {
        return Vec::from_slice(alloc, b"result void\n");
    };
    let mut line = Vec::from_slice(alloc, b"result")?;
    push_word(value_text(alloc, ty, number)?.as_bytes(), &mut line)?;
    line.push(b'\n')?;
    Ok(line)
}

fn panic_line(alloc: Global, cause: u8, message: &[u8]) -> Result<Vec<u8>, Oom>
    requires positive { 1 ≤ cause }
    requires within { cause ≤ 19 }
    ensures { IfOk result (λ line. line.items ≡ panic_line cause message.now) }
{
    let mut line = Vec::from_slice(alloc, b"panic")?;
    push_word(format!(in alloc; "{cause}")?.as_bytes(), &mut line)?;
    push_word(cause_name(cause).as_bytes(), &mut line)?;
    if cause == MESSAGE {
        push_word(bytes_text(alloc, message)?.as_slice(), &mut line)?;
    }
    line.push(b'\n')?;
    Ok(line)
}
