//! How order keys and group keys are written.

ghost use Rattle.std.specs.Prelude.{◌≡◌};
ghost use Rattle.pl_scope.specs.Steps as steps;
ghost use Rattle.pl_scope.specs.Resolution as spec;

use pl_base::Name;
use pl_names::{Source, is_column};
use pl_tree::{Expr, Literal};

/// How an expression is written, where a bare number or a bare name means more.
#[derive(Clone, Copy)]
pub enum Written {
    /// A number of less than 2^31, without its sign.
    Number { is_negative: bool, size: u64 },
    /// Another constant.
    Constant,
    /// A name without a qualifier.
    Called(Name),
    Other,
}

fn literal_written(literal: &Literal) -> Written
    ensures { result ≡ spec.literal_written literal.now }
{
    match literal {
        Literal::Number { is_negative, size } => number_written(*is_negative, *size),
        Literal::Null => Written::Constant,
        Literal::Bool(_) => Written::Constant,
        Literal::Text(_) => Written::Constant,
    }
}

fn number_written(is_negative: bool, size: u64) -> Written
    ensures { result ≡ spec.number_written is_negative size }
{
    if size < 1 << 31 {
        Written::Number { is_negative, size }
    } else {
        Written::Constant
    }
}

/// How the expression is written.
#[tactic(auto, using(crate::proofs::Equations::equations))]
pub fn as_written(e: &Expr) -> Written
    ensures { result ≡ spec.written e.now }
{
    match e {
        Expr::Name(x) => Written::Called(*x),
        Expr::Literal(literal) => literal_written(literal),
        Expr::Parameter(_) => Written::Other,
        Expr::Qualified { .. } => Written::Other,
        Expr::Call { .. } => Written::Other,
        Expr::CountRows => Written::Other,
        Expr::Subquery(_) => Written::Other,
        Expr::Exists(_) => Written::Other,
        Expr::Pick { .. } => Written::Other,
        Expr::NullIf(_, _) => Written::Other,
        Expr::Row(_) => Written::Other,
        Expr::Case { .. } => Written::Other,
        Expr::Cast { .. } => Written::Other,
        Expr::Signed { .. } => Written::Other,
        Expr::Product { .. } => Written::Other,
        Expr::Sum { .. } => Written::Other,
        Expr::Concat(_) => Written::Other,
        Expr::Between { .. } => Written::Other,
        Expr::InList { .. } => Written::Other,
        Expr::InQuery { .. } => Written::Other,
        Expr::Like { .. } => Written::Other,
        Expr::Compare { .. } => Written::Other,
        Expr::Is { .. } => Written::Other,
        Expr::IsDistinct { .. } => Written::Other,
        Expr::Not { .. } => Written::Other,
        Expr::And(_) => Written::Other,
        Expr::Or(_) => Written::Other,
    }
}

/// What a key of GROUP BY means as it is written: a column of an item of FROM goes before an output
/// column.
pub fn group_written(written: Written, sources: &[Source]) -> Written
    ensures { result ≡ steps.group_written written sources.now }
{
    match written {
        Written::Called(x) => called_in(x, sources),
        Written::Number { is_negative, size } => Written::Number { is_negative, size },
        Written::Constant => Written::Constant,
        Written::Other => Written::Other,
    }
}

fn called_in(x: Name, sources: &[Source]) -> Written
    ensures { result ≡ steps.called_in x sources.now }
{
    if is_column(x, sources) {
        Written::Other
    } else {
        Written::Called(x)
    }
}
