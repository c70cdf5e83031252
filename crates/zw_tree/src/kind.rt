// The kinds of nodes. Kinds say all that the rules on a tree ask of the text, so that no rule looks at tokens again.

/// What a node of a tree is (Zig Language Reference 0.13.0, Grammar). `kind as u16` is its code.
///
/// The children of each kind stand behind it, in the order of the text. `[x]` may be absent, `x…` is any number of x, and `x | y`
/// is one of both. A *name* is a `Name` or a `QuotedName`, an *identifier* an `Identifier` or a `QuotedIdentifier`, and a *binding*
/// a name or a `Blank`. An *operand* is an expression or a type: any kind behind the statements below that isn't named as a part
/// of others (`Else`, `ContinueExpression`, `ForRange`, `Prong`, `ElseProng`, `CaseRange`, `FieldInit`). A *statement* is an operand,
/// one of the kinds under 'Statements', a `Const` or a `Var`; a *member* is one of the kinds from `Test` to `Field`, but no
/// `Parameter`. Children that may be absent are told by their kinds, or by how many there are.
///
/// Words that change what stands beside them, as `pub`, are children of their own (the kinds that end in `Word`): kinds for
/// their combinations would be many, and a rule that asks for a word looks for one child. What changes the rule itself, as `*` in
/// a capture does, is a kind. An optional part that another could be taken for is a child with the part as its own child
/// (`FieldValue`, `Else`, `ContinueExpression`, `Label`).
///
/// A node's tokens are those of its form, from the first to the last, so that the tokens of its children lie in it, in order. A `,`
/// behind a form isn't part of it, nor is the `;` behind a `const` or `var`, an assignment or an expression. But where an `if`, a
/// loop, an `else`, a `defer`, an `errdefer` or a `comptime` is a statement whose own last part ends with a `;`, that `;` is its last
/// token, and so is the one behind an `extern` function.
#[derive(Clone, Copy, Debug, PartialEq, Eq)]
pub enum NodeKind {
    // The file and the members of containers.
    /// A file: member…. It has all tokens, with the end of the text.
    Root,
    /// `test`: [`Text` | identifier], `Block`.
    Test,
    /// `comptime` and a block, as a member of a container: `Block`.
    ComptimeBlock,
    /// `fn`: [`PubWord`], [`ExportWord` | `ExternWord` | `NoinlineWord`], name, `Parameter`…, [`InferredErrorsWord`], operand
    /// (the result's type), and, exactly where there is no `ExternWord`, `Block`.
    Function,
    /// [`ComptimeWord`], [binding], operand | `AnyType`: the last is the type.
    Parameter,
    /// `const`: [`PubWord` | `ComptimeWord`], name, [operand] (the type), operand (the value). `ComptimeWord` stands in
    /// statements alone.
    Const,
    /// `var`, with the children of `Const`.
    Var,
    /// A field of a struct, a tag of an enum, or a field of a union: name, [operand] (the type), [`FieldValue`].
    Field,
    /// `=` and a value behind a field: operand.
    FieldValue,

    // Names and words.
    /// A name that is introduced, or that names a field, a tag, an error or a label: no identifier. It has a name.
    Name,
    /// The same, quoted. It has a name.
    QuotedName,
    /// `_` in the place of a name. It has the name `_`.
    Blank,
    /// `name :` before a block or loop, or `: name` behind `break` or `continue`: name.
    Label,
    /// `pub`
    PubWord,
    /// `export`
    ExportWord,
    /// `extern`
    ExternWord,
    /// `noinline`
    NoinlineWord,
    /// `inline` before a loop.
    InlineWord,
    /// `comptime` before a parameter, or before `const` or `var` as a statement.
    ComptimeWord,
    /// `const` in a type of pointers or slices.
    ConstWord,
    /// `!` before the type of a function's result.
    InferredErrorsWord,
    /// `enum` in `union(enum)`.
    EnumWord,
    /// `anytype`
    AnyType,
    /// `|name|`, or one name of a `for`: binding.
    Capture,
    /// `|*name|`, or one name with `*` of a `for`: binding.
    PointerCapture,

    // Statements.
    /// `defer`: statement.
    Defer,
    /// `errdefer`: [`Capture`], statement.
    ErrDefer,
    /// `=`: operand | `Blank`, operand.
    Assign,
    /// `+=`: operand, operand; so are the others to `ShiftRightAssign`.
    AddAssign,
    /// `+%=`
    AddWrapAssign,
    /// `+|=`
    AddSaturateAssign,
    /// `-=`
    SubtractAssign,
    /// `-%=`
    SubtractWrapAssign,
    /// `-|=`
    SubtractSaturateAssign,
    /// `*=`
    MultiplyAssign,
    /// `*%=`
    MultiplyWrapAssign,
    /// `*|=`
    MultiplySaturateAssign,
    /// `/=`
    DivideAssign,
    /// `%=`
    RemainderAssign,
    /// `&=`
    BitAndAssign,
    /// `^=`
    BitXorAssign,
    /// `|=`
    BitOrAssign,
    /// `<<=`
    ShiftLeftAssign,
    /// `<<|=`
    ShiftLeftSaturateAssign,
    /// `>>=`
    ShiftRightAssign,

    // Blocks, choices and loops, as statements and as operands.
    /// `{ }`: [`Label`], statement….
    Block,
    /// `comptime`: statement, or the operand behind it in an expression.
    Comptime,
    /// `if`: operand, [`Capture` | `PointerCapture`], statement, [`Else`].
    If,
    /// `else` behind an `if` or a loop: [`Capture`], statement.
    Else,
    /// `while`: [`Label`], [`InlineWord`], operand, [`Capture` | `PointerCapture`], [`ContinueExpression`], statement, [`Else`].
    While,
    /// `: ( )` behind the condition of a `while`: operand or assignment.
    ContinueExpression,
    /// `for`: [`Label`], [`InlineWord`], operand | `ForRange`…, `Capture` | `PointerCapture`…, statement, [`Else`].
    For,
    /// `..` in a `for`: operand, [operand] (the end).
    ForRange,
    /// `switch`: operand, `Prong` | `ElseProng`….
    Switch,
    /// Cases of a `switch`: operand | `CaseRange` once or more, [`Capture` | `PointerCapture`], operand or assignment.
    Prong,
    /// `else` of a `switch`: [`Capture` | `PointerCapture`], operand or assignment.
    ElseProng,
    /// `...` in a case: operand, operand.
    CaseRange,
    /// `break`: [`Label`], [operand].
    Break,
    /// `continue`: [`Label`].
    Continue,
    /// `return`: [operand].
    Return,
    /// `unreachable`
    Unreachable,

    // Operators: operand, operand.
    /// `or`
    Or,
    /// `and`
    And,
    /// `==`
    Equal,
    /// `!=`
    NotEqual,
    /// `<`
    Less,
    /// `>`
    Greater,
    /// `<=`
    LessOrEqual,
    /// `>=`
    GreaterOrEqual,
    /// `&`
    BitAnd,
    /// `^`
    BitXor,
    /// `|`
    BitOr,
    /// `orelse`
    OrElse,
    /// `catch`: operand, [`Capture`], operand.
    Catch,
    /// `<<`
    ShiftLeft,
    /// `<<|`
    ShiftLeftSaturate,
    /// `>>`
    ShiftRight,
    /// `+`
    Add,
    /// `-`
    Subtract,
    /// `++`
    Concatenate,
    /// `+%`
    AddWrap,
    /// `-%`
    SubtractWrap,
    /// `+|`
    AddSaturate,
    /// `-|`
    SubtractSaturate,
    /// `*`
    Multiply,
    /// `/`
    Divide,
    /// `%`
    Remainder,
    /// `**`
    Repeat,
    /// `*%`
    MultiplyWrap,
    /// `*|`
    MultiplySaturate,
    /// `||`
    MergeErrors,

    // Prefixes: operand.
    /// `!`
    Not,
    /// `-`
    Negate,
    /// `~`
    BitNot,
    /// `-%`
    NegateWrap,
    /// `&`
    AddressOf,
    /// `try`
    Try,

    // Suffixes.
    /// `[ ]`: operand, operand.
    Index,
    /// `[ .. ]`: operand, operand (the start), [operand] (the end).
    Slicing,
    /// `.name`: operand, name.
    FieldAccess,
    /// `.*`: operand.
    Dereference,
    /// `.?`: operand.
    Unwrap,
    /// `( )` behind a callee: operand (the callee), operand…. What stands before `.name` is part of the callee.
    Call,
    /// Type and `{ .name = value }`: operand (the type), `FieldInit`…. Empty braces are this too.
    StructLiteral,
    /// Type and `{ value, }`: operand (the type), operand once or more.
    ArrayLiteral,

    // Literals and other operands.
    /// A name that is mentioned. It has a name.
    Identifier,
    /// The same, quoted. It has a name.
    QuotedIdentifier,
    /// It has a number, where its value isn't past 2^127 - 1.
    Number,
    /// It has a number.
    Character,
    /// One text in quotes, or line texts in a row. Its name is what it stands for.
    Text,
    /// `@` and its name: operand…. Its name is without the `@`.
    Builtin,
    /// `( )`: operand.
    Parentheses,
    /// `.name`: name.
    EnumLiteral,
    /// `.{ .name = value }`: `FieldInit`…. Empty braces are this too.
    AnonymousStruct,
    /// `.{ value, }`: operand once or more.
    AnonymousArray,
    /// `.name = value` in a literal: name, operand.
    FieldInit,
    /// `error.name`: name.
    ErrorValue,

    // Types.
    /// `error{ }`: name….
    ErrorSet,
    /// `struct`: member….
    Struct,
    /// `enum`: [operand] (the tag's type), member….
    Enum,
    /// `union`: [`EnumWord` | operand] (the tag), member….
    Union,
    /// `?`: operand.
    OptionalType,
    /// `*`: [`ConstWord`], operand.
    PointerType,
    /// `[*]`: [`ConstWord`], operand.
    ManyPointerType,
    /// `[]` or `[:sentinel]`: [operand] (the sentinel), [`ConstWord`], operand.
    SliceType,
    /// `[length]` or `[length:sentinel]`: operand | `Blank` (the length), [operand] (the
    /// sentinel), operand. The length is `_` in front of a literal's braces alone.
    ArrayType,
    /// `!` between types: operand (the errors), operand.
    ErrorUnionType,
}
