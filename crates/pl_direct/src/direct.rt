//! Values of whole expressions.

ghost use Rattle.std.specs.Prelude.{◌≡◌, [], map, not, IfSome};
ghost use Rattle.pl_direct.specs.Direct.{Directly, Is, Nullness};
ghost use Rattle.pl_direct.specs.Runs.{Joins, Leads};
ghost use Rattle.pl_names.specs.Names.{around};
ghost use Rattle.pl_scope.specs.Resolution.{factor_view, part, standing, term_view};
ghost use Rattle.pl_tree.specs.declared.tree.Expr.TheVariants as tree;

use crate::Known;
use crate::leaves::{constant, is_null_there, known_at, known_there, parameter, variable};
use crate::operators::{as_truth, both, calculated, compared, null_asked, opposite, signed};
use pl_base::{Boxed, Name, Test, Value};
use pl_catalog::Catalog;
use pl_names::{Level, Names, Scope};
use pl_scope::inside;
use pl_tree::{Expr, Factor, Sign, Term};

// What names are sought in, outside of any query.
fn names_in<'a>(catalog: &'a Catalog, scope: &'a Scope, none: &'a [Level<'a>]) -> Names<'a>
    requires none { none.now ≡ [] }
    ensures { around result ≡ standing catalog.now.objects scope.now }
{
    inside(catalog, scope, none, 1, 1, false)
}

/// The value of an expression over this row of variables, where it is made of numbers, truths,
/// variables of these types, and the operators on them. None where it has anything else in it, and
/// where it is null or fails.
pub fn direct_value<C>(
    catalog: &Catalog,
    scope: &Scope,
    e: &Expr,
    variables: &[Value],
) -> Option<Known>
    ensures { IfSome result (λ known. Directly C catalog.now.objects scope.now e.now variables.now
        known) }
{
    let none: [Level<'_>; 0] = [];
    let names = names_in(catalog, scope, &none);
    known::<C>(e, &names, variables)
}

// Most forms are read by a function of their own, so that others need no room for them.
#[cycle(direct)]
fn known<C>(e: &Expr, names: &Names<'_>, variables: &[Value]) -> Option<Known>
    ensures { IfSome result (λ known. Is C e.now (around names.now) variables.now known) }
{
    match e {
        Expr::Literal(literal) => constant(literal),
        Expr::Parameter(number) => numbered::<C>(*number, names, variables),
        Expr::Name(name) => named::<C>(name, names, variables),
        Expr::Signed { signs, operand } => {
            negative::<C>(signs.as_slice(), operand, names, variables)
        }
        Expr::Product { first, factors } => {
            let first = boxed::<C>(first, names, variables)?;
            factors_from::<C>(factors.as_slice(), first, names, variables)
        }
        Expr::Sum { first, terms } => {
            let first = boxed::<C>(first, names, variables)?;
            terms_from::<C>(terms.as_slice(), first, names, variables)
        }
        Expr::Compare {
            comparison,
            left,
            right,
        } => {
            let left = boxed::<C>(left, names, variables)?;
            let right = boxed::<C>(right, names, variables)?;
            compared(*comparison, left, right)
        }
        Expr::Is {
            is_negated,
            operand,
            test,
        } => asking::<C>(*is_negated, *test, operand, names, variables),
        Expr::Not { count, operand } => negated::<C>(*count, operand, names, variables),
        Expr::And(list) => all_of::<C>(list.as_slice(), names, variables),
        Expr::Or(list) => any_of::<C>(list.as_slice(), names, variables),
        _ => None,
    }
}

// ---- leaves

fn numbered<C>(number: u16, names: &Names<'_>, variables: &[Value]) -> Option<Known>
    ensures { IfSome result (λ known. Is C (tree.Parameter number) (around names.now) variables.now
        known) }
{
    let meaning = parameter(number, names)?;
    known_at(meaning, variables)
}

fn named<C>(name: &Name, names: &Names<'_>, variables: &[Value]) -> Option<Known>
    ensures { IfSome result (λ known. Is C (tree.Name name.now) (around names.now) variables.now
        known) }
{
    let spot = variable(name, names)?;
    known_there(spot, variables)
}

// ---- operators

#[cycle(direct)]
fn negative<C>(
    signs: &[Sign],
    operand: &Boxed<Expr>,
    names: &Names<'_>,
    variables: &[Value],
) -> Option<Known>
    ensures { IfSome result (λ known. Is C (tree.Signed signs.now operand.now) (around names.now)
        variables.now known) }
{
    let operand = boxed::<C>(operand, names, variables)?;
    signed(signs, operand)
}

#[cycle(direct)]
fn asking<C>(
    is_negated: bool,
    test: Test,
    operand: &Boxed<Expr>,
    names: &Names<'_>,
    variables: &[Value],
) -> Option<Known>
    ensures { IfSome result (λ known. Is C (tree.Is is_negated operand.now test) (around names.now)
        variables.now known) }
{
    let is_null = is_null::<C>(operand, names, variables)?;
    null_asked(is_negated, test, is_null)
}

#[cycle(direct)]
fn negated<C>(
    count: usize,
    operand: &Boxed<Expr>,
    names: &Names<'_>,
    variables: &[Value],
) -> Option<Known>
    ensures { IfSome result (λ known. Is C (tree.Not count operand.now) (around names.now)
        variables.now known) }
{
    let operand = boxed::<C>(operand, names, variables)?;
    opposite(count, operand)
}

#[cycle(direct)]
fn all_of<C>(list: &[Expr], names: &Names<'_>, variables: &[Value]) -> Option<Known>
    ensures { IfSome result (λ known. Is C (tree.And list.now) (around names.now) variables.now
        known) }
{
    let truth = joined::<C>(false, list, names, variables)?;
    Some(Known::Bool(truth))
}

#[cycle(direct)]
fn any_of<C>(list: &[Expr], names: &Names<'_>, variables: &[Value]) -> Option<Known>
    ensures { IfSome result (λ known. Is C (tree.Or list.now) (around names.now) variables.now
        known) }
{
    let truth = joined::<C>(true, list, names, variables)?;
    Some(Known::Bool(truth))
}

// ---- parts

#[cycle(direct)]
fn boxed<C>(e: &Boxed<Expr>, names: &Names<'_>, variables: &[Value]) -> Option<Known>
    ensures { IfSome result (λ known. Is C e.now (around names.now) variables.now known) }
{
    known::<C>(e.get(), names, variables)
}

// Whether it is null. A variable may be, whatever its type; what is known isn't.
#[cycle(direct)]
fn is_null<C>(e: &Boxed<Expr>, names: &Names<'_>, variables: &[Value]) -> Option<bool>
    ensures { IfSome result (λ is_null. Nullness C e.now (around names.now) variables.now
        is_null) }
{
    match e.get() {
        Expr::Name(name) => {
            let spot = variable(name, names)?;
            is_null_there(spot, variables)
        }
        e => {
            known::<C>(e, names, variables)?;
            Some(false)
        }
    }
}

// ---- operators from the left

#[cycle(direct)]
fn terms_from<C>(
    terms: &[Term],
    first: Known,
    names: &Names<'_>,
    variables: &[Value],
) -> Option<Known>
    ensures { IfSome result (λ last. Leads C (map term_view terms.now) (around names.now)
        variables.now first last) }
{
    let mut so_far = first;
    for term in terms {
        let operand = known::<C>(&term.operand, names, variables)?;
        so_far = calculated(term.operator, so_far, operand)?;
    }
    Some(so_far)
}

#[cycle(direct)]
fn factors_from<C>(
    factors: &[Factor],
    first: Known,
    names: &Names<'_>,
    variables: &[Value],
) -> Option<Known>
    ensures { IfSome result (λ last. Leads C (map factor_view factors.now) (around names.now)
        variables.now first last) }
{
    let mut so_far = first;
    for factor in factors {
        let operand = known::<C>(&factor.operand, names, variables)?;
        so_far = calculated(factor.operator, so_far, operand)?;
    }
    Some(so_far)
}

// ---- AND and OR

// All operands are read, since each of them must be a truth.
#[cycle(direct)]
fn joined<C>(fixed: bool, list: &[Expr], names: &Names<'_>, variables: &[Value]) -> Option<bool>
    ensures { IfSome result (λ last. Joins C fixed (map part list.now) (around names.now)
        variables.now (not fixed) last) }
{
    let mut so_far = !fixed;
    for e in list {
        let operand = known::<C>(e, names, variables)?;
        let truth = as_truth(operand)?;
        so_far = both(fixed, so_far, truth);
    }
    Some(so_far)
}
