// The parser's goals and its reductions.

use crate::terminal::Terminal;

/// An identifier with a meaning of its own.
#[derive(Clone, Copy, PartialEq, Eq)]
pub enum Spelled {
    Java,
    Util,
    Override,
}

/// The next thing to parse. Goals whose names begin with `After`, or with a position, continue from the values on top.
#[derive(Clone, Copy)]
pub enum Goal {
    // files and classes
    File,
    Dotted,
    Imports,
    Imported,
    Classes,
    ClassAhead,
    Extended,
    ClassTail,
    Members,
    Member,
    MemberName,
    Contracts,
    Contract,
    ThrownName,
    MethodAhead,
    ContractedMethod,
    Method,
    FieldOrMethod,
    Parameters,
    Parameter,
    MoreParameters,
    ConstructorBody,
    AfterSuper,

    // types
    Type,
    TypeName,
    TypeTail,
    Dimensions,

    // locals and statements
    Initialiser,
    MoreDeclarators,
    AfterLocalName,
    Statements,
    BlockStatement,
    Item,
    ItemName,
    ItemBracket,
    Statement,
    OptionalExpression,
    ElsePart,
    Catch,
    Catches,
    CaughtParameter,
    ForInitial,
    MoreInitial,
    ForUpdates,
    MoreUpdates,
    StatementExpression,
    AfterStatementPrimary,

    // primary expressions
    Primary,
    PrimaryName,
    Creator,
    CreatorName,
    CreatorArgument,
    ObjectCreation,
    ArrayLength,
    Suffixes,
    Selected,
    Arguments,
    MoreArguments,

    // expressions
    Expression,
    AfterUnary,
    AfterOperation,
    Conditional,
    Unary,
    Unsigned,
    Postfixes,
    /// operators that bind at least as tightly as one level, and at most as another
    Operators { least: u8, most: u8 },

    // in parentheses: a cast's type or an expression
    InParentheses,
    PrimitiveCast,
    EnclosedName,
    EnclosedBracket,
    EnclosedPrimary,
    Closing,
    AfterEnclosedName,
    AfterChain,

    // names with `<` between them, types or comparisons
    ChainArgument,
    ChainName,
    ChainBracket,
    ChainPrimary,
    ChainGreater,
    ChainClosing,

    // the type after `instanceof`
    Tested,
    TestedName,
    AfterTested,
}

/// The reductions of the values on top.
#[derive(Clone, Copy)]
pub enum Make {
    Nil,
    Cons,
    /// two words into a pair
    Pair,
    /// the two values on top, swapped
    Swap,

    // types
    TypeOfMark,
    TypeOfName,
    Generic,
    Diamond,
    Array,

    // expressions
    Variable,
    CallOfName,
    SuperCall,
    ObjectCreation,
    ArrayCreation,
    Enclosed,
    FieldAccess,
    MethodCall,
    ArrayAccess,
    StepBehind,
    StepBefore,
    Unary,
    Cast,
    Old,
    Binary,
    Less,
    Greater,
    /// names with `<` between them as comparisons, those below the top or all
    CompareBelow,
    CompareAll,
    InstanceOf,
    Conditional,
    Assign,

    // statements
    Declarator,
    Local,
    ExpressionStatement,
    Block,
    Empty,
    Return,
    Jump,
    IfThen,
    IfElse,
    While,
    Do,
    For,
    Throw,
    Try,
    Catch,

    // declarations
    MemberAhead,
    SetStatic,
    SetFinal,
    SetOverrides,
    Parameter,
    Field,
    Method,
    Requires,
    Ensures,
    Signals,
    /// a method with contracts
    ContractedMethod,
    ConstructorCall,
    Constructor,
    Owner,
    NestedOwner,
    ConsBelow,
    EndMembers,
    Class,
    Nested,
}

/// A symbol on the parser's stack.
#[derive(Clone, Copy)]
pub enum Symbol {
    /// a token comes next
    Take(Terminal),
    /// a token comes next, and is kept as a mark
    Keep(Terminal),
    /// an identifier comes next, and is kept as a word
    Word,
    /// a literal comes next, and becomes a tree
    Literal,
    /// an identifier of this spelling comes next
    Spell(Spelled),
    Want(Goal),
    Build(Make),
}
