//! Types, headings and refusals, as a PostgreSQL server has them; the headings of literals and casts
//! are this project's own.

use pl_base::{Arithmetic, Comparison, Name, Operator, Test, Ty};
use pl_resolved::{Head, RExpr};
use pl_tree::{Literal, Pick, Sign};
use pl_typing::{
    Arguments, Arms, Listed, Run, ScopeFail, Typed, aggregate_named, aggregated, asked, between,
    cast, compared, distinct, exists, function_called, headed, in_list, in_query, like, limited,
    literal, negated, null_if, picked, row, scalar, signed, tested, truth,
};
use std::alloc::Global;

const ADD: Operator = Operator::Arithmetic(Arithmetic::Add);

const NULL: Literal = Literal::Null;

// A column of the type, named c.
fn column(alloc: Global, ty: Ty) -> Result<Typed, ScopeFail> {
    let name = match Name::of("c") {
        Some(name) => name,
        None => Name::NONE,
    };
    Ok(headed(alloc, RExpr::Place { row: 1, column: 0 }, ty, name)?)
}

fn is(made: Result<Typed, ScopeFail>, ty: Ty, head: &str) -> bool {
    match made {
        Ok(made) => made.ty == ty && made.head.as_bytes() == head.as_bytes(),
        Err(_) => false,
    }
}

fn fails(made: Result<Typed, ScopeFail>, code: &[u8; 5]) -> bool {
    match made {
        Err(ScopeFail::State(state)) => state.code == *code,
        _ => false,
    }
}

fn number(alloc: Global, is_negative: bool, size: u64) -> Result<Typed, ScopeFail> {
    literal(alloc, &Literal::Number { is_negative, size })
}

#[test]
fn a_number_has_the_least_type_that_holds_it(rt: HostRuntime) {
    let alloc = rt.alloc();
    for (is_negative, size, ty) in [
        (false, 2_147_483_647, Ty::Int),
        (false, 2_147_483_648, Ty::Big),
        (true, 2_147_483_648, Ty::Int),
        (true, 2_147_483_649, Ty::Big),
        (true, 9_223_372_036_854_775_808, Ty::Big),
    ] {
        assert!(rt; is(number(alloc, is_negative, size), ty, ""), "{size}");
    }
    let too_large = number(alloc, false, 9_223_372_036_854_775_808);
    assert!(rt; fails(too_large, b"22003"), "2^63");
}

fn sum(alloc: Global, left: Ty, right: Ty) -> Result<Typed, ScopeFail> {
    let run = Run::new(alloc, column(alloc, left)?);
    Ok(run.step(alloc, ADD, column(alloc, right)?)?.end(alloc)?)
}

fn equal(alloc: Global, left: Ty, right: Ty) -> Result<Typed, ScopeFail> {
    let left = column(alloc, left)?;
    compared(alloc, Comparison::Equal, left, column(alloc, right)?)
}

fn bounded(alloc: Global, ty: Ty, low: Ty, high: Ty) -> Result<Typed, ScopeFail> {
    let operand = column(alloc, ty)?;
    let low = column(alloc, low)?;
    between(alloc, true, operand, low, column(alloc, high)?)
}

fn with_minus(alloc: Global, ty: Ty) -> Result<Typed, ScopeFail> {
    signed(alloc, &[Sign::Plus, Sign::Minus], column(alloc, ty)?)
}

fn is_true(alloc: Global, ty: Ty) -> Result<Typed, ScopeFail> {
    asked(alloc, false, column(alloc, ty)?, Test::True)
}

fn not(alloc: Global, ty: Ty) -> Result<Typed, ScopeFail> {
    negated(alloc, 2, column(alloc, ty)?)
}

fn unlike(alloc: Global, ty: Ty) -> Result<Typed, ScopeFail> {
    let operand = column(alloc, ty)?;
    like(alloc, true, operand, column(alloc, Ty::Unknown)?)
}

#[test]
fn operators_take_what_the_server_takes(rt: HostRuntime) {
    let alloc = rt.alloc();
    assert!(rt;
        is(sum(alloc, Ty::Int, Ty::Big), Ty::Big, ""),
        "integer + bigint"
    );
    assert!(rt;
        is(sum(alloc, Ty::Unknown, Ty::Int), Ty::Int, ""),
        "literal + integer"
    );
    assert!(rt;
        fails(sum(alloc, Ty::Int, Ty::Text), b"42883"),
        "integer + text"
    );
    assert!(rt;
        is(equal(alloc, Ty::Unknown, Ty::Bool), Ty::Bool, ""),
        "literal = boolean"
    );
    assert!(rt;
        fails(equal(alloc, Ty::Int, Ty::Text), b"42883"),
        "integer = text"
    );
    assert!(rt;
        is(bounded(alloc, Ty::Unknown, Ty::Big, Ty::Int), Ty::Bool, ""),
        "between"
    );
    assert!(rt;
        fails(bounded(alloc, Ty::Int, Ty::Int, Ty::Text), b"42883"),
        "other bound"
    );
    assert!(rt; is(with_minus(alloc, Ty::Big), Ty::Big, ""), "- bigint");
    assert!(rt; fails(with_minus(alloc, Ty::Bool), b"42883"), "- boolean");
    assert!(rt; is(is_true(alloc, Ty::Bool), Ty::Bool, ""), "is true");
    assert!(rt; fails(is_true(alloc, Ty::Int), b"42804"), "integer is true");
    assert!(rt;
        is(not(alloc, Ty::Unknown), Ty::Bool, ""),
        "not not literal"
    );
    assert!(rt; fails(not(alloc, Ty::Text), b"42804"), "not text");
    assert!(rt; is(unlike(alloc, Ty::Text), Ty::Bool, ""), "not like");
    assert!(rt; fails(unlike(alloc, Ty::Int), b"42883"), "integer not like");
}

fn cast_through(alloc: Global, ty: Ty, types: &[Ty]) -> Result<Typed, ScopeFail> {
    cast(alloc, column(alloc, ty)?, types)
}

fn cast_of_literal(alloc: Global, types: &[Ty]) -> Result<Typed, ScopeFail> {
    cast(alloc, literal(alloc, &NULL)?, types)
}

fn coalesce(alloc: Global, ty: Ty, other: Ty) -> Result<Typed, ScopeFail> {
    let all = Listed::new(alloc).with(column(alloc, ty)?)?;
    picked(alloc, Pick::Coalesce, all.with(column(alloc, other)?)?)
}

fn one_of(alloc: Global, ty: Ty, other: Ty) -> Result<Typed, ScopeFail> {
    let all = Listed::new(alloc).with(column(alloc, ty)?)?;
    in_list(alloc, true, all.with(column(alloc, other)?)?)
}

fn null_where_equal(alloc: Global, ty: Ty, other: Ty) -> Result<Typed, ScopeFail> {
    let first = column(alloc, ty)?;
    null_if(alloc, first, column(alloc, other)?)
}

fn case(alloc: Global, when: Ty, then: Ty, otherwise: Ty) -> Result<Typed, ScopeFail> {
    let when = tested(alloc, &None, column(alloc, when)?)?;
    let arms = Arms::new(alloc).with(when, column(alloc, then)?)?;
    arms.end(alloc, None, Some(column(alloc, otherwise)?))
}

#[test]
fn types_unite_and_are_cast(rt: HostRuntime) {
    let alloc = rt.alloc();
    let text_bool = [Ty::Text, Ty::Bool];
    assert!(rt;
        is(cast_through(alloc, Ty::Int, &text_bool), Ty::Bool, "c"),
        "c::text::boolean"
    );
    assert!(rt;
        is(cast_of_literal(alloc, &text_bool), Ty::Bool, "text"),
        "null::text::boolean"
    );
    assert!(rt;
        fails(cast_through(alloc, Ty::Bool, &[Ty::Big]), b"42846"),
        "boolean::bigint"
    );
    assert!(rt;
        fails(cast_through(alloc, Ty::Text, &[Ty::Rec]), b"0A000"),
        "text to a row"
    );
    assert!(rt;
        is(coalesce(alloc, Ty::Int, Ty::Big), Ty::Big, "coalesce"),
        "coalesce"
    );
    assert!(rt;
        is(
            coalesce(alloc, Ty::Unknown, Ty::Unknown),
            Ty::Text,
            "coalesce"
        ),
        "literals"
    );
    assert!(rt;
        fails(coalesce(alloc, Ty::Int, Ty::Text), b"42804"),
        "integer, text"
    );
    assert!(rt;
        is(one_of(alloc, Ty::Int, Ty::Unknown), Ty::Bool, ""),
        "not in"
    );
    assert!(rt;
        fails(one_of(alloc, Ty::Int, Ty::Bool), b"42883"),
        "integer not in boolean"
    );
    assert!(rt;
        is(null_where_equal(alloc, Ty::Int, Ty::Big), Ty::Int, "nullif"),
        "nullif"
    );
    assert!(rt;
        fails(null_where_equal(alloc, Ty::Int, Ty::Bool), b"42883"),
        "nullif of two types"
    );
    assert!(rt;
        is(case(alloc, Ty::Bool, Ty::Int, Ty::Big), Ty::Big, "case"),
        "case"
    );
    assert!(rt;
        fails(case(alloc, Ty::Int, Ty::Int, Ty::Int), b"42804"),
        "when integer"
    );
    assert!(rt;
        fails(case(alloc, Ty::Bool, Ty::Int, Ty::Bool), b"42804"),
        "else boolean"
    );
}

fn arguments(alloc: Global, types: &[Ty]) -> Result<Arguments, ScopeFail> {
    let mut all = Arguments::new(alloc);
    for ty in types {
        all = all.with(column(alloc, *ty)?)?;
    }
    Ok(all)
}

fn call(alloc: Global, name: &str, types: &[Ty]) -> Result<Typed, ScopeFail> {
    let all = arguments(alloc, types)?;
    match Name::of(name) {
        Some(name) => function_called(alloc, name, all),
        None => Err(ScopeFail::Memory),
    }
}

fn total(alloc: Global, name: &str, types: &[Ty]) -> Result<Typed, ScopeFail> {
    let all = arguments(alloc, types)?;
    let Some(name) = Name::of(name) else {
        return Err(ScopeFail::Memory);
    };
    match aggregate_named(&name) {
        Some(aggregate) => column(alloc, aggregated(alloc, aggregate, all)?.ty),
        None => Err(ScopeFail::Memory),
    }
}

#[test]
fn calls_take_what_the_server_takes(rt: HostRuntime) {
    let alloc = rt.alloc();
    assert!(rt; is(call(alloc, "abs", &[Ty::Big]), Ty::Big, "abs"), "abs");
    assert!(rt;
        is(call(alloc, "mod", &[Ty::Int, Ty::Big]), Ty::Big, "mod"),
        "mod"
    );
    assert!(rt;
        is(
            call(alloc, "substr", &[Ty::Unknown, Ty::Int]),
            Ty::Text,
            "substr"
        ),
        "substr"
    );
    assert!(rt;
        fails(call(alloc, "substr", &[Ty::Text, Ty::Big]), b"42883"),
        "substr of bigint"
    );
    assert!(rt;
        fails(call(alloc, "length", &[]), b"42883"),
        "length of nothing"
    );
    assert!(rt; fails(call(alloc, "nothing", &[]), b"42883"), "no function");
    assert!(rt; is(total(alloc, "sum", &[Ty::Int]), Ty::Big, "c"), "sum");
    assert!(rt;
        is(total(alloc, "count", &[Ty::Unknown]), Ty::Big, "c"),
        "count"
    );
    assert!(rt; is(total(alloc, "max", &[Ty::Text]), Ty::Text, "c"), "max");
    assert!(rt;
        fails(total(alloc, "max", &[Ty::Bool]), b"42883"),
        "max of boolean"
    );
    let types = [Ty::Text, Ty::Unknown];
    assert!(rt;
        is(total(alloc, "string_agg", &types), Ty::Text, "c"),
        "string_agg"
    );
}

fn row_of_two(alloc: Global) -> Result<Typed, ScopeFail> {
    Ok(row(alloc, arguments(alloc, &[Ty::Int, Ty::Unknown])?)?)
}

fn value_of(alloc: Global, heads: &[Head]) -> Result<Typed, ScopeFail> {
    scalar(alloc, 3, heads)
}

fn in_three(alloc: Global, heads: &[Head]) -> Result<Typed, ScopeFail> {
    in_query(alloc, true, column(alloc, Ty::Unknown)?, 3, heads)
}

fn there_is(alloc: Global) -> Result<Typed, ScopeFail> {
    Ok(exists(alloc, 3)?)
}

fn differ(alloc: Global, ty: Ty, other: Ty) -> Result<Typed, ScopeFail> {
    let left = column(alloc, ty)?;
    distinct(alloc, true, left, column(alloc, other)?)
}

fn is_condition(alloc: Global, ty: Ty) -> Result<(), ScopeFail> {
    truth(alloc, column(alloc, ty)?)?;
    Ok(())
}

fn is_count(alloc: Global, ty: Ty) -> Result<(), ScopeFail> {
    limited(alloc, column(alloc, ty)?)?;
    Ok(())
}

fn text_column() -> Head {
    Head {
        name: Name::NONE,
        ty: Ty::Text,
    }
}

#[test]
fn rows_queries_and_conditions(rt: HostRuntime) {
    let alloc = rt.alloc();
    assert!(rt; is(row_of_two(alloc), Ty::Rec, "row"), "row");
    assert!(rt;
        is(value_of(alloc, &[text_column()]), Ty::Text, ""),
        "the value of a query"
    );
    assert!(rt;
        fails(value_of(alloc, &[text_column(), text_column()]), b"42601"),
        "two columns"
    );
    assert!(rt;
        is(in_three(alloc, &[text_column()]), Ty::Bool, ""),
        "not in a query"
    );
    assert!(rt; fails(in_three(alloc, &[]), b"42601"), "no column");
    assert!(rt; is(there_is(alloc), Ty::Bool, "exists"), "exists");
    assert!(rt;
        is(differ(alloc, Ty::Rec, Ty::Rec), Ty::Bool, ""),
        "two rows"
    );
    assert!(rt;
        fails(differ(alloc, Ty::Rec, Ty::Int), b"42883"),
        "a row and an integer"
    );
    assert!(rt; is_condition(alloc, Ty::Unknown).is_ok(), "a literal");
    assert!(rt; is_condition(alloc, Ty::Text).is_err(), "a text");
    assert!(rt; is_count(alloc, Ty::Int).is_ok(), "a count");
    assert!(rt; is_count(alloc, Ty::Bool).is_err(), "no count");
}
