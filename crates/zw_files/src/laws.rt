// What holds of the definitions themselves: each law is the contract of a function that does nothing.
ghost use Rattle.std.specs.Prelude.{◌≡◌, ℕ, List, Result};
ghost use Rattle.zw_base.specs.declared.files.Answer.{Answer};
ghost use Rattle.zw_base.specs.declared.files.Handed.{Handed};
ghost use Rattle.zw_base.specs.declared.stop.Stop.{Stop};
ghost use Rattle.zw_base.specs.declared.stop.StopKind.TheVariants.{Error, Limit};
ghost use Rattle.zw_files.specs.Discovery.{AreAnswers, Discovery, Found, Located, Reads};
ghost use Rattle.zw_files.specs.WorkedDiscovery.{WorkedDiscovery};
ghost use Rattle.zw_files.specs.WorkedPaths.{WorkedPaths, WorkedLiterals};
ghost use Rattle.zw_files.specs.declared.stops.TheConstants.{FILE_ABSENT, FILE_LENGTH, FILE_LIMIT, FILES, FILES_LIMIT, IMPORT_PATH, TREE_LENGTH, TREE_LIMIT};
ghost use Rattle.zw_token.specs.Tokens.{Tokens};
ghost use Rattle.zw_token.specs.declared.token.Token.{Token};
ghost use Rattle.zw_tree.specs.Trees.{Forest};
ghost use Rattle.zw_tree.specs.declared.ast.Entry.{Entry};

/// Where import literals lead, worked out by hand.
pub fn paths_are_worked()
    ensures paths { WorkedPaths }
    ensures literals { WorkedLiterals }
{}

/// Which files are found, and in which order, worked out by hand.
pub fn discoveries_are_worked()
    ensures { WorkedDiscovery }
{}

/// A text reads in one way at most: as one tree whose names keep the rules, or as one stop. One that has tokens reads.
pub fn texts_read_once()
    ensures once { (number : ℕ) (text : List ℕ) (a b : Result (Forest Entry) Stop) → Reads number text a → Reads number text b → a ≡ b }
    ensures some { (number : ℕ) (text : List ℕ) (tokens : List Token) → Tokens text tokens → (a : Result (Forest Entry) Stop) × Reads number text a }
{}

/// For the files that a map has, there is one discovery at most: one list of files that are handed over, and one end. So a tree has
/// all its files or a stop, and never both, and one first stop.
pub fn one_discovery()
    ensures { (root : List ℕ) (answers : List ℕ → Answer) (files others : List Handed) (a b : Result Found Located) →
        AreAnswers answers files → AreAnswers answers others → Discovery root files a → Discovery root others b → (files ≡ others) × (a ≡ b) }
{}

/// For the files that were handed over there is one end at most.
pub fn one_end()
    ensures { (root : List ℕ) (files : List Handed) (a b : Result Found Located) → Discovery root files a → Discovery root files b → a ≡ b }
{}

/// The greatest numbers of bytes in a file, of files, and of bytes in all files together.
pub fn limits_are_fixed()
    ensures file { FILE_LIMIT ≡ 4194304 }
    ensures files { FILES_LIMIT ≡ 1024 }
    ensures tree { TREE_LIMIT ≡ 33554432 }
{}

/// The number of each error and limit that no file's own text tells.
pub fn stops_are_numbered()
    ensures file_absent { FILE_ABSENT ≡ Error 1 }
    ensures import_path { IMPORT_PATH ≡ Error 2 }
    ensures file_length { FILE_LENGTH ≡ Limit 1 }
    ensures files { FILES ≡ Limit 2 }
    ensures tree_length { TREE_LENGTH ≡ Limit 14 }
{}
