//! Statements that hold no other: PostgreSQL manual, "PL/pgSQL", "Basic Statements", "Control
//! Structures", "Cursors", "Transaction Management" and "Errors and Messages".

use pl_base::{Boxed, List, Name, Txt};
use pl_tree::{Command, Delete, Expr, Insert, Query, Update};

/// A statement that holds no other.
#[derive(Drop)]
pub enum Simple {
    /// `target := value` or `target = value`
    Assign {
        target: Target,
        value: Expr,
    },
    /// NULL
    Null,
    /// COMMIT
    Commit,
    /// ROLLBACK
    Rollback,
    /// PERFORM: the query whose SELECT stands as PERFORM.
    Perform(Query),
    /// A query that is written out; INTO says where its row goes.
    Query {
        query: Query,
        into: Option<IntoClause>,
    },
    /// INSERT, UPDATE or DELETE; INTO says where the row of its RETURNING goes.
    Change {
        change: Change,
        into: Option<IntoClause>,
    },
    /// Any other command. It is none of BEGIN, COMMIT, END, ROLLBACK, ROLLBACK TO and ABORT.
    Command(Command),
    /// EXIT or CONTINUE
    Jump {
        jump: Jump,
        /// The loop's or the block's label, where one is named.
        label: Option<Name>,
        /// WHEN
        condition: Option<Boxed<Expr>>,
    },
    /// RETURN
    Return(Option<Boxed<Expr>>),
    /// RETURN NEXT
    ReturnNext(Option<Boxed<Expr>>),
    /// RETURN QUERY
    ReturnQuery(Query),
    /// RETURN QUERY EXECUTE
    ReturnExecute(Dynamic),
    /// RAISE alone: the handled error again.
    RaiseAgain,
    /// RAISE with what it raises.
    Raise(Raise),
    /// ASSERT
    Assert {
        condition: Expr,
        message: Option<Boxed<Expr>>,
    },
    /// EXECUTE
    Execute {
        command: Dynamic,
        into: Option<IntoClause>,
    },
    /// OPEN
    Open {
        cursor: Name,
        source: OpenSource,
    },
    /// FETCH
    Fetch {
        cursor: Name,
        direction: Direction,
        /// INTO; at least one.
        targets: List<Target>,
    },
    /// MOVE
    Move {
        cursor: Name,
        motion: Motion,
    },
    /// CLOSE
    Close(Name),
    /// GET DIAGNOSTICS, or GET CURRENT DIAGNOSTICS: the targets that are given ROW_COUNT, of which
    /// there is at least one.
    GetDiagnostics(List<Target>),
    /// GET STACKED DIAGNOSTICS; at least one.
    GetStackedDiagnostics(List<StackedTarget>),
}

// ---- where values go

/// A variable that is given a value: `name` or `qualifier.name`.
#[derive(Clone, Copy)]
pub struct Target {
    pub qualifier: Option<Name>,
    pub name: Name,
}

/// INTO
#[derive(Drop)]
pub struct IntoClause {
    /// STRICT
    pub is_strict: bool,
    /// At least one.
    pub targets: List<Target>,
}

// ---- commands

/// A change of a table's rows.
#[derive(Drop)]
pub enum Change {
    Insert(Insert),
    Update(Update),
    Delete(Delete),
}

/// A command that is given as a text, with the values of its parameters.
#[derive(Drop)]
pub struct Dynamic {
    pub text: Expr,
    /// USING: the first is `$1`. Empty where there is none.
    pub arguments: List<Expr>,
}

// ---- control

/// Where EXIT and CONTINUE go.
#[derive(Clone, Copy)]
pub enum Jump {
    /// EXIT: behind the loop or the block.
    Exit,
    /// CONTINUE: to the next turn of the loop.
    Continue,
}

// ---- RAISE

/// How a message is raised.
#[derive(Clone, Copy)]
pub enum Level {
    Debug,
    Log,
    Info,
    Notice,
    Warning,
    Exception,
}

/// RAISE with what it raises.
#[derive(Drop)]
pub struct Raise {
    /// `Level::Exception` where none is written.
    pub level: Level,
    pub raised: Raised,
    /// USING; empty where there is none.
    pub options: List<RaiseOption>,
}

/// What RAISE says before USING.
#[derive(Drop)]
pub enum Raised {
    /// A text, and the arguments that its percent signs stand for.
    Text { format: Txt, arguments: List<Expr> },
    Condition(Condition),
    /// Nothing: there is at least one option then.
    Nothing,
}

/// A condition, as it is written.
#[derive(Drop)]
pub enum Condition {
    Name(Name),
    /// SQLSTATE with a text, which need not be a code.
    Code(Txt),
}

/// An option of RAISE.
#[derive(Drop)]
pub struct RaiseOption {
    pub kind: RaiseOptionKind,
    pub value: Expr,
}

#[derive(Clone, Copy)]
pub enum RaiseOptionKind {
    Message,
    Detail,
    Hint,
    Errcode,
}

// ---- cursors

/// What OPEN says behind the cursor's name.
#[derive(Drop)]
pub enum OpenSource {
    /// The arguments of a bound cursor; empty where there are no brackets.
    Bound(List<Expr>),
    /// FOR with a query.
    Query {
        /// SCROLL. False with NO SCROLL, and where neither is written.
        can_scroll: bool,
        query: Query,
    },
    /// FOR EXECUTE
    Execute {
        can_scroll: bool,
        command: Dynamic,
    },
}

/// Which row FETCH goes to, from the row where the cursor stands.
#[derive(Drop)]
pub enum Direction {
    /// NEXT or FORWARD, and where no direction is written.
    Next,
    /// PRIOR or BACKWARD
    Prior,
    /// FIRST
    First,
    /// LAST
    Last,
    /// ABSOLUTE: to the row of this number; a negative one counts from the end.
    Absolute(Expr),
    /// RELATIVE
    Relative(Expr),
}

/// How far MOVE goes.
#[derive(Drop)]
pub enum Motion {
    /// To a row, as FETCH does.
    To(Direction),
    /// FORWARD with a number of rows.
    Forward(Expr),
    /// ALL or FORWARD ALL: behind the last row.
    ForwardAll,
    /// BACKWARD with a number of rows.
    Backward(Expr),
    /// BACKWARD ALL: before the first row.
    BackwardAll,
}

// ---- diagnostics

/// What GET STACKED DIAGNOSTICS knows of the handled error.
#[derive(Clone, Copy)]
pub enum StackedItem {
    ReturnedSqlstate,
    MessageText,
    PgExceptionDetail,
    PgExceptionHint,
}

/// An item and the variable that is given it.
#[derive(Clone, Copy)]
pub struct StackedTarget {
    pub target: Target,
    pub item: StackedItem,
}
