// The statements that leaving scopes runs.
ghost use Rattle.std.specs.Prelude.{◌≡◌, ◌++◌, ◌≤◌, length, IfOk, OnOk};
ghost use Rattle.zw_defer.specs.ScopeExit.{exit_list, left_scope};

use sqlite_items::Items;
use std::alloc::{AllocError as Oom, Global};

/// An open scope: its deferred statements so far, in the order of the text, each with true for `errdefer`.
#[derive(Debug, Drop)]
pub struct Scope {
    pub items: Items<(u32, bool)>,
}

/// The statements that leaving all scopes but the first `keep` runs, in order: those of inner scopes before those of outer
/// ones, and what was deferred later first. `errdefer` statements are among them only where an error is returned (Zig Language
/// Reference 0.13.0, defer and errdefer). The scopes stand from the outermost to the innermost.
pub fn exit_list(alloc: Global, scopes: &[Scope], keep: u32, error: bool) -> Result<Vec<u32>, Oom>
    requires { keep ≤ length scopes.now }
    ensures { IfOk result (λ statements. statements.items ≡ exit_list scopes.now keep error) }
{
    let mut statements = Vec::new(alloc);
    for place in (keep as usize..scopes.len()).rev() {
        leave_scope(&mut statements, scopes[place].items.as_slice(), error)?;
    }
    Ok(statements)
}

/// Appends the statements that leaving one scope runs.
fn leave_scope(statements: &mut Vec<u32>, items: &[(u32, bool)], error: bool) -> Result<(), Oom>
    ensures { OnOk result (statements.new.items ≡ statements.old.items ++ left_scope error items.now) }
{
    for place in (0..items.len()).rev() {
        let (statement, on_error) = items[place];
        if error || !on_error {
            statements.push(statement)?;
        }
    }
    Ok(())
}
