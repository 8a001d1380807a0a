//! Bodies of one statement, which stands on line 3, and of one declaration on line 1.

use pl_base::{Boxed, Held, List, Memory, Name, Ty};
use pl_bodies::{
    Block, Body, Condition, Declaration, DeclarationKind, Jump, Level, Loop, LoopHead, Raise,
    Raised, Simple, Statement, StatementKind, Target, VariableType,
};
use pl_tree::{Expr, Literal};
use std::alloc::Global;

fn name(word: &str) -> Result<Name, Memory> {
    Name::of(word).ok_or(Memory)
}

fn null(alloc: Global) -> Result<Option<Boxed<Expr>>, Memory> {
    Ok(Some(Boxed::new(alloc, Expr::Literal(Literal::Null))?))
}

// ---- statements

pub(crate) fn nothing() -> Held<StatementKind> {
    Held::new(StatementKind::Simple(Simple::Null))
}

pub(crate) fn exit() -> Held<StatementKind> {
    Held::new(StatementKind::Simple(Simple::Jump {
        jump: Jump::Exit,
        label: None,
        condition: None,
    }))
}

pub(crate) fn assigns(word: &str) -> Result<Held<StatementKind>, Memory> {
    let target = Target {
        qualifier: None,
        name: name(word)?,
    };
    Ok(Held::new(StatementKind::Simple(Simple::Assign {
        target,
        value: Expr::Literal(Literal::Null),
    })))
}

pub(crate) fn raises(alloc: Global, word: &str) -> Result<Held<StatementKind>, Memory> {
    let condition = Condition::Name(name(word)?);
    Ok(Held::new(StatementKind::Simple(Simple::Raise(Raise {
        level: Level::Exception,
        raised: Raised::Condition(condition),
        options: List::new(alloc),
    }))))
}

pub(crate) fn returns(alloc: Global) -> Result<Held<StatementKind>, Memory> {
    Ok(Held::new(StatementKind::Simple(Simple::Return(null(alloc)?))))
}

fn statements(alloc: Global, kind: Held<StatementKind>) -> Result<List<Statement>, Memory> {
    let mut statements = List::new(alloc);
    statements.push(Statement {
        line: 3,
        ordinal: 1,
        kind: kind.into_inner(),
    })?;
    Ok(statements)
}

pub(crate) fn loops(
    alloc: Global,
    kind: Held<StatementKind>,
) -> Result<Held<StatementKind>, Memory> {
    let statements = statements(alloc, kind)?;
    Ok(Held::new(StatementKind::Loop(Loop {
        label: None,
        head: LoopHead::Forever,
        statements,
        end_label: None,
    })))
}

// ---- declarations

fn declarations(alloc: Global, declaration: Declaration) -> Result<List<Declaration>, Memory> {
    let mut declarations = List::new(alloc);
    declarations.push(declaration)?;
    Ok(declarations)
}

/// `x CONSTANT integer := NULL`
pub(crate) fn constant(alloc: Global) -> Result<List<Declaration>, Memory> {
    let default = null(alloc)?;
    let declaration = Declaration {
        line: 1,
        name: name("x")?,
        kind: DeclarationKind::Variable {
            is_constant: true,
            ty: VariableType::Ty(Ty::Int),
            is_not_null: false,
            default,
        },
    };
    declarations(alloc, declaration)
}

/// `x integer NOT NULL`
pub(crate) fn not_null(alloc: Global) -> Result<List<Declaration>, Memory> {
    let declaration = Declaration {
        line: 1,
        name: name("x")?,
        kind: DeclarationKind::Variable {
            is_constant: false,
            ty: VariableType::Ty(Ty::Int),
            is_not_null: true,
            default: None,
        },
    };
    declarations(alloc, declaration)
}

// ---- bodies

pub(crate) fn body(
    alloc: Global,
    declarations: List<Declaration>,
    kind: Held<StatementKind>,
) -> Result<Held<Body>, Memory> {
    let statements = statements(alloc, kind)?;
    Ok(Held::new(Body {
        line: 2,
        block: Block {
            label: None,
            declarations,
            statements,
            handlers: List::new(alloc),
            end_label: None,
        },
    }))
}
