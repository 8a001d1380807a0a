//! Calls: PostgreSQL manual, "Function Type Resolution".

ghost use Rattle.std.specs.Prelude.{◌≡◌, [], IfOk};
ghost use Rattle.pl_typing.specs.Resolved.{Gives};
ghost use Rattle.pl_typing.specs.Calls as spec;

use crate::headings::row_heading;
use crate::{ScopeFail, Typed, as_text_type, coerced, headed};
use pl_base::{Boxed, List, Name, State, Ty};
use pl_resolved::RExpr;
use std::alloc::{AllocError, Global};

/// Arguments, and the type of each.
#[derive(Drop)]
pub struct Arguments {
    pub list: List<RExpr>,
    pub types: List<Ty>,
}

impl Arguments {
    pub fn new(alloc: Global) -> Arguments
        ensures { result ≡ spec.no_arguments }
    {
        Arguments {
            list: List::new(alloc),
            types: List::new(alloc),
        }
    }

    /// The arguments, and one more.
    pub fn with(self, argument: Typed) -> Result<Arguments, AllocError>
        ensures { IfOk result (λ all. all ≡ spec.argument_with self argument) }
    {
        let Arguments {
            mut list,
            mut types,
        } = self;
        list.push(argument.tree.into_inner())?;
        types.push(argument.ty)?;
        Ok(Arguments { list, types })
    }
}

/// ROW. A field that has no type is a text.
#[tactic(auto, unfolding(crate::specs::Calls::row_of))]
pub fn row(alloc: Global, fields: Arguments) -> Result<Typed, AllocError>
    ensures { IfOk result (λ made. made ≡ spec.row_of fields) }
{
    let Arguments { list, types } = fields;
    let types = field_types(alloc, types.as_slice())?;
    let tree = RExpr::Row {
        fields: list,
        types,
    };
    headed(alloc, tree, Ty::Rec, row_heading())
}

fn field_types(alloc: Global, mut types: &[Ty]) -> Result<List<Ty>, AllocError>
    ensures { IfOk result (λ made. made ≡ spec.field_types [] types.entry.now) }
{
    let mut made = List::new(alloc);
    while let [ty, rest @ ..] = types {
        made.push(as_text_type(ty))?;
        types = rest;
    }
    Ok(made)
}

// ---- arguments as they are taken

// Whether a value of the type goes as one of the other with no cast written.
fn goes_as(from: &Ty, to: &Ty) -> bool
    ensures { result ≡ spec.goes_as from.now to.now }
{
    match (from, to) {
        (Ty::Unknown, _) => true,
        (Ty::Int, Ty::Int | Ty::Big) => true,
        (Ty::Big, Ty::Big) | (Ty::Text, Ty::Text) => true,
        (Ty::Bool, Ty::Bool) | (Ty::Rec, Ty::Rec) => true,
        (Ty::Row(from), Ty::Row(to)) => from == to,
        _ => false,
    }
}

fn all_go(types: &[Ty], wanted: &[Ty]) -> bool
    ensures { result ≡ spec.all_go types.entry.now wanted.entry.now }
{
    let mut types = types;
    let mut wanted = wanted;
    loop {
        let Some((ty, more)) = types.split_first() else {
            return wanted.is_empty();
        };
        let Some((to, rest)) = wanted.split_first() else {
            return false;
        };
        if !goes_as(ty, to) {
            return false;
        }
        types = more;
        wanted = rest;
    }
}

/// The arguments as parameters of these types take them, with the casts that nobody wrote. 42883
/// where there is another number of them, or one has another type.
#[tactic(auto, unfolding(crate::specs::Calls::fitted))]
pub fn fitted(alloc: Global, arguments: Arguments, wanted: &[Ty]) -> Result<List<RExpr>, ScopeFail>
    ensures { Gives result (spec.fitted arguments wanted.now) }
{
    let Arguments { list, types } = arguments;
    if all_go(types.as_slice(), wanted) {
        Ok(cast_each(alloc, list, types.as_slice(), wanted)?)
    } else {
        Err(ScopeFail::State(State::UNDEFINED_FUNCTION))
    }
}

fn cast_each(
    alloc: Global,
    list: List<RExpr>,
    types: &[Ty],
    wanted: &[Ty],
) -> Result<List<RExpr>, AllocError>
    ensures { IfOk result (λ made. made ≡ spec.cast_each [] types.entry.now wanted.entry.now list) }
{
    let mut list = list;
    let mut types = types;
    let mut wanted = wanted;
    let mut made = List::new(alloc);
    loop {
        let Some((ty, more)) = types.split_first() else {
            return Ok(made);
        };
        let Some((to, rest)) = wanted.split_first() else {
            return Ok(made);
        };
        if list.is_empty() {
            return Ok(made);
        }
        let argument = Boxed::new(alloc, list.remove(0))?;
        made.push(as_type(alloc, argument, *ty, *to)?.into_inner())?;
        types = more;
        wanted = rest;
    }
}

#[tactic(auto, unfolding(crate::specs::Typing::coerced))]
fn as_type(alloc: Global, tree: Boxed<RExpr>, ty: Ty, to: Ty) -> Result<Boxed<RExpr>, AllocError>
    ensures { IfOk result (λ made. made ≡ spec.as_type ty to tree) }
{
    let argument = Typed {
        tree,
        ty,
        head: Name::NONE,
    };
    coerced(alloc, argument, to)
}
