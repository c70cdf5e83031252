// What holds of the definitions themselves: each law is the contract of a function that does nothing.
ghost use Rattle.std.specs.Prelude.{◌≡◌, ℕ, List, Some};
ghost use Rattle.zw_base.specs.declared.files.Handed.{Handed};
ghost use Rattle.zw_drive.specs.Commands.{Build, command_of};
ghost use Rattle.zw_drive.specs.Due.{IsDue};
ghost use Rattle.zw_drive.specs.Inputs.{Reading};
ghost use Rattle.zw_form.specs.Trees.{Tree};
ghost use Rattle.zw_drive.specs.declared.validate.TheConstants.{MODULE_LIMIT};
ghost use Rattle.zw_drive.specs.Laws.{EndsAreKept, SessionsAreOfFittingCalls};

/// No two statuses and no two lines are due for the same words, files and input, and no two outputs unless the words ask for a build,
/// of which any module that does what the root's text says may be the output.
pub fn one_due()
    ensures told { (words : List (List ℕ)) (files : List Handed) (reading : Reading) (status other : ℕ) (out more line another : List ℕ) → IsDue words files reading status out line → IsDue words files reading other more another → (status ≡ other) × (line ≡ another) }
    ensures output { (words : List (List ℕ)) (files : List Handed) (reading : Reading) (status other : ℕ) (out more line another : List ℕ) → ((root : List ℕ) → command_of words ≡ Some (Build root) → ⊥) → IsDue words files reading status out line → IsDue words files reading other more another → out ≡ more }
{}

/// The greatest number of bytes in a module's file.
pub fn limits_are_fixed()
    ensures { MODULE_LIMIT ≡ 134217728 }
{}

/// A session that ended stays ended with the same record under a larger bound, at a file of the form and at a module.
pub fn sessions_stay_ended()
    ensures { EndsAreKept }
{}

/// A call makes part of a session of a file exactly where it has the name of an exported function, as many arguments as
/// that has parameters, and each of them from -2^31 to 2^32 - 1: any number of 32 bits, with a sign or without one.
pub fn sessions_are_of_fitting_calls()
    ensures { (trees : List Tree) → SessionsAreOfFittingCalls trees }
{}
