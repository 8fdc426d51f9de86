//! The tree of a script. It owns its texts, which are those of the tokens, and holds no lines.
//!
//! The types that hold trees have no `Debug`, whose proof would be dear; `print_tokens` of `awk_tree` shows what a tree is.

pub use awk_tokens::Builtin;

/// `++` or `--`.
#[derive(Clone, Copy, Debug, PartialEq, Eq)]
pub enum StepOp {
    Increment,
    Decrement,
}

/// An operator before its one operand.
#[derive(Clone, Copy, Debug, PartialEq, Eq)]
pub enum UnaryOp {
    Not,
    Plus,
    Minus,
}

/// An operator between two operands; `Concat` has no token.
#[derive(Clone, Copy, Debug, PartialEq, Eq)]
pub enum BinaryOp {
    Or,
    And,
    Match,
    NoMatch,
    Less,
    LessEqual,
    Equal,
    NotEqual,
    Greater,
    GreaterEqual,
    Concat,
    Add,
    Subtract,
    Multiply,
    Divide,
    Modulo,
    Power,
}

/// An assignment: plain, or with the operator before its `=`.
#[derive(Clone, Copy, Debug, PartialEq, Eq)]
pub enum AssignOp {
    Set,
    Add,
    Subtract,
    Multiply,
    Divide,
    Modulo,
    Power,
}

/// An expression. A pair of parentheses is a node of its own, `Group`.
///
/// The text of a string is the token with its quotes, that of an ERE the token with its slashes.
#[derive(Drop)]
pub enum Expr {
    Number(Vec<u8>),
    Str(Vec<u8>),
    Ere(Vec<u8>),
    /// `length` without parentheses.
    Length,
    Var(Vec<u8>),
    /// `name [ subscripts ]`.
    Element(Vec<u8>, Vec<Expr>),
    /// `$ field`.
    Field(Box<Expr>),
    Group(Box<Expr>),
    /// A call of a function of the script.
    Call(Vec<u8>, Vec<Expr>),
    /// A call of a built-in function with parentheses.
    Apply(Builtin, Vec<Expr>),
    Unary(UnaryOp, Box<Expr>),
    PreStep(StepOp, Box<Expr>),
    PostStep(StepOp, Box<Expr>),
    Binary(BinaryOp, Box<Expr>, Box<Expr>),
    Assign(AssignOp, Box<Expr>, Box<Expr>),
    /// `subscript in name`.
    In(Box<Expr>, Vec<u8>),
    /// `( first, others ) in name`.
    InList(Box<Expr>, Vec<Expr>, Vec<u8>),
    /// `condition ? then : otherwise`.
    Conditional(Box<Expr>, Box<Expr>, Box<Expr>),
    Getline,
    /// `getline variable`.
    GetlineInto(Box<Expr>),
    /// `getline < file`.
    GetlineFrom(Box<Expr>),
    /// `getline variable < file`.
    GetlineIntoFrom(Box<Expr>, Box<Expr>),
}

#[derive(Clone, Copy, Debug, PartialEq, Eq)]
pub enum PrintWord {
    Print,
    Printf,
}

/// What `print` and `printf` print: nothing written, a list, or a list of two or more in parentheses.
#[derive(Drop)]
pub enum PrintArgs {
    Bare,
    Listed(Vec<Expr>),
    Enclosed(Expr, Vec<Expr>),
}

/// Where `print` and `printf` write: to the standard output, or to the file of this name, anew or at its end.
#[derive(Drop)]
pub enum PrintTarget {
    Output,
    File(Expr),
    FileEnd(Expr),
}

/// A statement that may also stand in the head of a `for`.
#[derive(Drop)]
pub enum SimpleStmt {
    Eval(Expr),
    Print(PrintWord, PrintArgs, PrintTarget),
    /// `delete name [ subscripts ]`.
    Delete(Vec<u8>, Vec<Expr>),
    /// `delete name`, which empties the array.
    Clear(Vec<u8>),
}

#[derive(Clone, Copy, Debug, PartialEq, Eq)]
pub enum Jump {
    Break,
    Continue,
    Next,
    NextFile,
}

#[derive(Clone, Copy, Debug, PartialEq, Eq)]
pub enum Leaving {
    Exit,
    Return,
}

/// A statement.
#[derive(Drop)]
pub enum Stmt {
    Block(Vec<Stmt>),
    Empty,
    Simple(SimpleStmt),
    If(Expr, Box<Stmt>),
    IfElse(Expr, Box<Stmt>, Box<Stmt>),
    While(Expr, Box<Stmt>),
    Do(Box<Stmt>, Expr),
    /// `for ( first; condition; step ) body`.
    For(Option<SimpleStmt>, Option<Expr>, Option<SimpleStmt>, Box<Stmt>),
    /// `for ( key in array ) body`.
    ForIn(Vec<u8>, Vec<u8>, Box<Stmt>),
    Jump(Jump),
    Leave(Leaving, Option<Expr>),
}

/// A condition, or the first and last record of a range.
#[derive(Drop)]
pub enum Pattern {
    One(Expr),
    Range(Expr, Expr),
}

/// An item of a script.
#[derive(Drop)]
pub enum Item {
    /// `function name ( parameters ) { body }`.
    Function(Vec<u8>, Vec<Vec<u8>>, Vec<Stmt>),
    Begin(Vec<Stmt>),
    End(Vec<Stmt>),
    /// An action without a pattern.
    Action(Vec<Stmt>),
    Rule(Pattern, Vec<Stmt>),
    /// A pattern without an action.
    PatternOnly(Pattern),
    /// A lone `;`.
    Empty,
}

/// How deep a script is at most that is read.
pub const MAX_DEPTH: u32 = 1_000;

/// A script: its items in order.
#[derive(Drop)]
pub struct Script {
    pub items: Vec<Item>,
}
