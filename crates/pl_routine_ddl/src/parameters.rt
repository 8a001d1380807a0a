//! The parameters and the result of a routine.

ghost use Rattle.std.specs.Prelude.{◌≡◌};
ghost use Rattle.pl_ddl.specs.pl_catalog.Objects.{table_named, tables_in};
ghost use Rattle.pl_ddl.specs.Refusals.{row_refusal};
ghost use Rattle.pl_grouping.specs.Words as words;
ghost use Rattle.pl_ddl.specs.pl_names.Routines.{all_go_in, goes_in, types_of};
ghost use Rattle.pl_routine_ddl.specs.Routines as spec;

use pl_base::{Name, State, Ty};
use pl_ddl::pl_catalog::Catalog;
use pl_tree::{Param, ResultType, Way};

/// Whether each parameter only goes in.
pub(crate) fn all_go_in(params: &[Param]) -> bool
    ensures { result ≡ all_go_in params.now }
{
    params.iter().all(|param| goes_in(param.way))
}

fn goes_in(way: Way) -> bool
    ensures { result ≡ goes_in way }
{
    match way {
        Way::In => true,
        Way::Out | Way::InOut => false,
    }
}

// ---- types

fn row_refusal(catalog: &Catalog, name: Name) -> State
    ensures { result ≡ row_refusal (table_named name (tables_in catalog.now.objects)) }
{
    match catalog.table(name) {
        Some(_) => State::FEATURE_NOT_SUPPORTED,
        None => State::UNDEFINED_OBJECT,
    }
}

fn param_refusal(catalog: &Catalog, ty: &Ty) -> Option<State>
    ensures { result ≡ spec.param_refusal (tables_in catalog.now.objects) ty.now }
{
    match ty {
        Ty::Int | Ty::Big | Ty::Text | Ty::Bool => None,
        Ty::Row(name) => Some(row_refusal(catalog, *name)),
        Ty::Unknown | Ty::Rec | Ty::Void | Ty::Trigger => Some(State::FEATURE_NOT_SUPPORTED),
    }
}

/// Why the type of a parameter is refused, of the first one that is: 42704 where there is no such
/// type, 0A000 where it isn't supported.
pub(crate) fn params_refusal(catalog: &Catalog, mut params: &[Param]) -> Option<State>
    ensures { result ≡ spec.params_refusal (tables_in catalog.now.objects) params.entry.now }
{
    while let [param, rest @ ..] = params {
        if let Some(state) = param_refusal(catalog, &param.ty) {
            return Some(state);
        }
        params = rest;
    }
    None
}

fn given_refusal(catalog: &Catalog, ty: &Ty) -> Option<State>
    ensures { result ≡ spec.given_refusal (tables_in catalog.now.objects) ty.now }
{
    match ty {
        Ty::Void => None,
        Ty::Int | Ty::Big | Ty::Text | Ty::Bool => param_refusal(catalog, ty),
        Ty::Row(_) | Ty::Unknown | Ty::Rec | Ty::Trigger => param_refusal(catalog, ty),
    }
}

/// Why the type of the result is refused, as that of a parameter is.
pub(crate) fn result_refusal(catalog: &Catalog, given: &ResultType) -> Option<State>
    ensures { result ≡ spec.result_refusal (tables_in catalog.now.objects) given.now }
{
    match given {
        ResultType::One(ty) => given_refusal(catalog, ty),
        ResultType::Absent | ResultType::Set(_) | ResultType::Columns(_) => None,
    }
}

fn same_type(a: &Ty, b: &Ty) -> bool
    ensures { result ≡ words.same_type a.now b.now }
{
    match (a, b) {
        (Ty::Unknown, Ty::Unknown) => true,
        (Ty::Int, Ty::Int) => true,
        (Ty::Big, Ty::Big) => true,
        (Ty::Text, Ty::Text) => true,
        (Ty::Bool, Ty::Bool) => true,
        (Ty::Row(a), Ty::Row(b)) => a == b,
        (Ty::Rec, Ty::Rec) => true,
        (Ty::Void, Ty::Void) => true,
        (Ty::Trigger, Ty::Trigger) => true,
        _ => false,
    }
}

/// Whether the parameters are of these types, one for one.
pub(crate) fn same_types(mut types: &[Ty], mut params: &[Param]) -> bool
    ensures { result ≡ words.same_types types.entry.now (types_of params.entry.now) }
{
    while let [ty, more @ ..] = types {
        let Some((param, others)) = params.split_first() else {
            return false;
        };
        if !same_type(ty, &param.ty) {
            return false;
        }
        types = more;
        params = others;
    }
    params.is_empty()
}

// ---- names

fn is_named(name: &Name, param: &Param) -> bool
    ensures { result ≡ spec.is_named name.now param.now }
{
    match &param.name {
        Some(other) => *name == *other,
        None => false,
    }
}

fn any_is_named(name: &Name, mut params: &[Param]) -> bool
    ensures { result ≡ spec.any_is_named name.now params.entry.now }
{
    while let [param, rest @ ..] = params {
        if is_named(name, param) {
            return true;
        }
        params = rest;
    }
    false
}

fn is_named_again(name: &Option<Name>, params: &[Param]) -> bool
    ensures { result ≡ spec.is_named_again name.now params.now }
{
    match name {
        Some(name) => any_is_named(name, params),
        None => false,
    }
}

/// Whether two parameters have one name.
pub(crate) fn two_of_a_name(mut params: &[Param]) -> bool
    ensures { result ≡ spec.two_of_a_name params.entry.now }
{
    while let [param, rest @ ..] = params {
        if is_named_again(&param.name, rest) {
            return true;
        }
        params = rest;
    }
    false
}

// ---- what stays where a routine is replaced

fn keeps_name(old: &Option<Name>, new: &Option<Name>) -> bool
    ensures { result ≡ spec.keeps_name old.now new.now }
{
    match (old, new) {
        (None, _) => true,
        (Some(_), None) => false,
        (Some(name), Some(other)) => *name == *other,
    }
}

/// Whether the parameters have the types of the old ones, and the names that those had.
pub(crate) fn keeps_params(mut old: &[Param], mut new: &[Param]) -> bool
    ensures { result ≡ spec.keeps_params old.entry.now new.entry.now }
{
    while let [first, more @ ..] = old {
        let Some((param, others)) = new.split_first() else {
            return false;
        };
        if !same_type(&first.ty, &param.ty) || !keeps_name(&first.name, &param.name) {
            return false;
        }
        old = more;
        new = others;
    }
    new.is_empty()
}

/// Whether the result is of the type of the old one.
pub(crate) fn keeps_result(old: &ResultType, new: &ResultType) -> bool
    ensures { result ≡ spec.keeps_result old.now new.now }
{
    match (old, new) {
        (ResultType::One(ty), ResultType::One(other)) => same_type(ty, other),
        _ => false,
    }
}
