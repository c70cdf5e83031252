// The records of a typed program. Contracts see each `Items` as the list of its items, and `Types` as the list of its types.
use sqlite_items::Items;
use zw_base::{Place, Word};
use zw_num::Operator;
use zw_types::{TypeId, Types, Value};

/// What a node does.
#[derive(Debug, Drop)]
pub enum NodeOp {
    /// It is this value.
    Constant(Value),
    /// The argument of the function with this number, from 0.
    Argument(u32),
    /// This operator, on the values of its kids.
    Operate(Operator),
    /// The value of its kid becomes one of its type.
    Become,
    /// Of two kids the second is evaluated where the first is true.
    And,
    /// Of two kids the second is evaluated where the first is false.
    Or,
    /// A call of the function of the host with this number, from 0, after its arguments.
    CallHost(u32),
    /// One kid after the other.
    InOrder,
    /// The function returns the value of its kid.
    Return,
}

/// A node of a function: what it does, its type, and the numbers of the nodes that it needs, which stand in front of it.
#[derive(Debug, Drop)]
pub struct Node {
    pub op: NodeOp,
    pub ty: TypeId,
    pub kids: Items<u32>,
}

/// A function of the program: where its declaration begins; the types of its parameters, of its result, and of its run-time variables beside
/// the parameters; its nodes, and the number of that which is its body.
#[derive(Debug, Drop)]
pub struct Func {
    pub place: Place,
    pub params: Items<TypeId>,
    pub result: TypeId,
    pub vars: Items<TypeId>,
    pub nodes: Items<Node>,
    pub body: u32,
}

/// A function of the host that is called: its name, and the types of its parameters and of its result.
#[derive(Debug, Drop)]
pub struct HostFunc {
    pub name: Word,
    pub params: Items<TypeId>,
    pub result: TypeId,
}

/// The name of an exported function, and its number, from 0.
#[derive(Debug, Drop)]
pub struct Export {
    pub name: Word,
    pub func: u32,
}

/// A typed program. Functions stand in the order in which they were first needed, functions of the host in that of the first call, and exports
/// in that of the text.
#[derive(Debug, Drop)]
pub struct Program {
    pub types: Types,
    pub funcs: Items<Func>,
    pub imports: Items<HostFunc>,
    pub exports: Items<Export>,
}
