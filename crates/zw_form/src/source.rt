// A file of the form as it stands in the text: its functions with the names that they use.
ghost use Rattle.std.specs.Prelude.{◌≡◌};

use sqlite_items::Items;
use zw_num::Arithmetic;

/// What a call names: a function, with how many arguments, and whether its result is used.
#[derive(Debug, Drop)]
pub struct Callee {
    pub name: Items<u8>,
    pub args: u32,
    pub has_result: bool,
}

/// A step of a function. A step takes the values that it needs, the last ones, and puts its own in their place.
#[derive(Debug, Drop)]
pub enum Step {
    /// The value of the parameter with this name.
    Parameter(Items<u8>),
    /// This number.
    Number(u32),
    /// Takes two values, of which the second is the right operand.
    Operate(Arithmetic),
    /// Takes the arguments.
    Call(Callee),
}

/// A function of the host: its name, the names of its `u32` parameters, and whether it gives a `u32`.
#[derive(Debug, Drop)]
pub struct ExternFunction {
    pub name: Items<u8>,
    pub params: Items<Items<u8>>,
    pub has_result: bool,
}

/// A function that a module exports: its name, the names of its `u32` parameters, the names of the functions that it
/// calls in the order of the text, and its steps in the order in which they are taken. The last one gives its result.
#[derive(Debug, Drop)]
pub struct ExportedFunction {
    pub name: Items<u8>,
    pub params: Items<Items<u8>>,
    pub callees: Items<Items<u8>>,
    pub steps: Items<Step>,
}

/// A declaration of a file.
#[derive(Debug, Drop)]
pub enum Declaration {
    Extern(ExternFunction),
    Export(ExportedFunction),
}

impl Declaration {
    ghost use Rattle.zw_form.specs.Rules.{name_of, params_of};

    /// The name of the function.
    pub fn name(&self) -> &[u8]
        ensures { result.now ≡ name_of self.now }
    {
        match self {
            Declaration::Extern(function) => function.name.as_slice(),
            Declaration::Export(function) => function.name.as_slice(),
        }
    }

    /// The names of the function's parameters.
    pub fn params(&self) -> &[Items<u8>]
        ensures { result.now ≡ params_of self.now }
    {
        match self {
            Declaration::Extern(function) => function.params.as_slice(),
            Declaration::Export(function) => function.params.as_slice(),
        }
    }
}
