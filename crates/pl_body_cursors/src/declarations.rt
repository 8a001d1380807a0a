//! Declarations, behind their names.

ghost use Rattle.std.specs.Prelude.{◌≡◌};
ghost use Rattle.pl_grammar.specs.Marks.{same_text};
ghost use Rattle.pl_grammar.specs.Parser.{Reads};
ghost use Rattle.pl_bodies.specs.declared.declaration.DeclarationKind.TheVariants as d;
ghost use Rattle.pl_grammar.specs.Rule.{fork, make, nothing, part, ◌before◌, ◌then◌};
ghost use Rattle.pl_body_grammar.specs.Grammar as spec;
ghost use Rattle.pl_body_grammar.specs.Trees as trees;
ghost use Rattle.pl_body_grammar.specs.FirstFollow.{reads, reads_part};
ghost use Rattle.pl_body_grammar.specs.Words.{ROWTYPE, TYPE};
ghost use Rattle.pl_body_grammar.specs.declared.parts.TypeSuffix.TheVariants as suffixes;

use crate::marks::{BEHIND_CURSOR_WORDS, CURSOR_WORDS};
use pl_base::{Boxed, List, Name, Ty};
use pl_bodies::{CursorParameter, DeclarationKind, VariableType};
use pl_body_grammar::{TypeSuffix, becomes, boxed_expression, either, sees_pair, until};
use pl_expr_parse::{read_query, read_type, type_of};
use pl_grammar::{Fail, Mark, Tokens, list};
use pl_lex::{Keyword, Sign};
use pl_tree::{Expr, Query};
use std::alloc::Global;

// [[NO] SCROLL]
fn scroll(tokens: &mut Tokens<'_>) -> Result<bool, Fail>
    ensures { Reads (reads_part spec.Scroll tokens.old) result tokens.new }
{
    if tokens.eat(Mark::Word("no")) {
        if tokens.eat(Mark::Word("scroll")) {
            return Ok(false);
        }
        return Err(Fail::Syntax);
    }
    Ok(tokens.eat(Mark::Word("scroll")))
}

// name type
fn cursor_parameter(alloc: Global, tokens: &mut Tokens<'_>) -> Result<CursorParameter, Fail>
    ensures { Reads (reads_part spec.CursorParameter tokens.old) result tokens.new }
{
    match tokens.name() {
        Ok(name) => match read_type(alloc, tokens) {
            Ok(ty) => Ok(CursorParameter { name, ty }),
            Err(fail) => Err(fail),
        },
        Err(fail) => Err(fail),
    }
}

// [(name type {, name type})]
fn cursor_parameters(alloc: Global, tokens: &mut Tokens<'_>) -> Result<List<CursorParameter>, Fail>
    ensures { Reads (reads_part spec.CursorParameters tokens.old) result tokens.new }
{
    if tokens.eat(Mark::Sign(Sign::Open)) {
        let parameters = list(
            alloc,
            tokens,
            Mark::Sign(Sign::Comma),
            |tokens| cursor_parameter(alloc, tokens),
        );
        return until(parameters, tokens, Mark::Sign(Sign::Close));
    }
    Ok(List::new(alloc))
}

// (FOR | IS) query;
fn bound_query(alloc: Global, tokens: &mut Tokens<'_>) -> Result<Boxed<Query>, Fail>
    ensures { Reads (reads_part spec.BoundQuery tokens.old) result tokens.new }
{
    match either(
        tokens,
        Mark::Keyword(Keyword::For),
        Mark::Keyword(Keyword::Is),
    ) {
        Ok(()) => {
            let query = read_query(alloc, tokens);
            match until(query, tokens, Mark::Sign(Sign::Semicolon)) {
                Ok(query) => Ok(Boxed::new(alloc, query)?),
                Err(fail) => Err(fail),
            }
        }
        Err(fail) => Err(fail),
    }
}

// [(name type {, name type})] (FOR | IS) query;
fn cursor_bound(
    alloc: Global,
    tokens: &mut Tokens<'_>,
) -> Result<(List<CursorParameter>, Boxed<Query>), Fail>
    ensures { Reads (reads (part spec.CursorParameters then part spec.BoundQuery) tokens.old)
        result tokens.new }
{
    match cursor_parameters(alloc, tokens) {
        Ok(parameters) => match bound_query(alloc, tokens) {
            Ok(query) => Ok((parameters, query)),
            Err(fail) => Err(fail),
        },
        Err(fail) => Err(fail),
    }
}

// [[NO] SCROLL] CURSOR [(name type {, name type})] (FOR | IS) query;
fn cursor_declared(alloc: Global, tokens: &mut Tokens<'_>) -> Result<DeclarationKind, Fail>
    ensures { Reads (reads_part spec.CursorDeclared tokens.old) result tokens.new }
{
    let can_scroll = match scroll(tokens) {
        Ok(can_scroll) => can_scroll,
        Err(fail) => return Err(fail),
    };
    if tokens.eat(Mark::Word("cursor")) {
        return match cursor_bound(alloc, tokens) {
            Ok((parameters, query)) => Ok(DeclarationKind::Cursor {
                can_scroll,
                parameters,
                query,
            }),
            Err(fail) => Err(fail),
        };
    }
    Err(Fail::Syntax)
}

// The type of this name, which stands in quotes or not.
fn named_type(in_quotes: bool, name: Name) -> VariableType
    ensures { result ≡ trees.named_type in_quotes name }
{
    if is(name, "refcursor") {
        return VariableType::Cursor;
    }
    VariableType::Ty(type_of(in_quotes, name))
}

fn is(name: Name, word: &str) -> bool
    ensures { result ≡ same_text name word.now }
{
    name.as_bytes() == word.as_bytes()
}

fn variable_type_of(in_quotes: bool, name: Name, suffix: TypeSuffix) -> VariableType
    ensures { result ≡ trees.variable_type_of in_quotes name suffix }
{
    match suffix {
        TypeSuffix::Nothing => named_type(in_quotes, name),
        TypeSuffix::RowType => VariableType::Ty(Ty::Row(name)),
        TypeSuffix::OfVariable => VariableType::OfVariable(name),
        TypeSuffix::OfColumn(column) => VariableType::OfColumn {
            table: name,
            column,
        },
    }
}

// `%ROWTYPE` or `%TYPE`, behind the sign.
fn copied_type(tokens: &mut Tokens<'_>) -> Result<TypeSuffix, Fail>
    ensures { Reads (reads (fork ROWTYPE (nothing suffixes.RowType)
        (TYPE before nothing suffixes.OfVariable)) tokens.old) result tokens.new }
{
    if tokens.eat(Mark::Word("rowtype")) {
        return Ok(TypeSuffix::RowType);
    }
    if tokens.eat(Mark::Word("type")) {
        return Ok(TypeSuffix::OfVariable);
    }
    Err(Fail::Syntax)
}

// What stands behind the name of a type.
fn type_suffix(tokens: &mut Tokens<'_>) -> Result<TypeSuffix, Fail>
    ensures { Reads (reads_part spec.TypeSuffix tokens.old) result tokens.new }
{
    if tokens.eat(Mark::Sign(Sign::Percent)) {
        return copied_type(tokens);
    }
    if tokens.eat(Mark::Sign(Sign::Dot)) {
        let column = tokens.name();
        let column = until(column, tokens, Mark::Sign(Sign::Percent));
        return match until(column, tokens, Mark::Word("type")) {
            Ok(column) => Ok(TypeSuffix::OfColumn(column)),
            Err(fail) => Err(fail),
        };
    }
    Ok(TypeSuffix::Nothing)
}

// The type of a variable.
fn variable_type(tokens: &mut Tokens<'_>) -> Result<VariableType, Fail>
    ensures { Reads (reads_part spec.VariableType tokens.old) result tokens.new }
{
    match tokens.written_name() {
        Ok((in_quotes, name)) => match type_suffix(tokens) {
            Ok(suffix) => Ok(variable_type_of(in_quotes, name, suffix)),
            Err(fail) => Err(fail),
        },
        Err(fail) => Err(fail),
    }
}

// [NOT NULL]
fn not_null(tokens: &mut Tokens<'_>) -> Result<bool, Fail>
    ensures { Reads (reads_part spec.NotNull tokens.old) result tokens.new }
{
    if tokens.eat(Mark::Keyword(Keyword::Not)) {
        if tokens.eat(Mark::Keyword(Keyword::Null)) {
            return Ok(true);
        }
        return Err(Fail::Syntax);
    }
    Ok(false)
}

// DEFAULT, `:=` or `=`
fn default_sign(tokens: &mut Tokens<'_>) -> Result<(), Fail>
    ensures { Reads (reads_part spec.DefaultSign tokens.old) result tokens.new }
{
    if tokens.eat(Mark::Keyword(Keyword::Default)) {
        return Ok(());
    }
    becomes(tokens)
}

// [(DEFAULT | := | =) e];
fn default(alloc: Global, tokens: &mut Tokens<'_>) -> Result<Option<Boxed<Expr>>, Fail>
    ensures { Reads (reads_part spec.Default tokens.old) result tokens.new }
{
    if tokens.eat(Mark::Sign(Sign::Semicolon)) {
        return Ok(None);
    }
    match default_sign(tokens) {
        Ok(()) => {
            let value = boxed_expression(alloc, tokens);
            match until(value, tokens, Mark::Sign(Sign::Semicolon)) {
                Ok(value) => Ok(Some(value)),
                Err(fail) => Err(fail),
            }
        }
        Err(fail) => Err(fail),
    }
}

// A variable's type, NOT NULL and default.
fn typed(
    alloc: Global,
    tokens: &mut Tokens<'_>,
) -> Result<(VariableType, (bool, Option<Boxed<Expr>>)), Fail>
    ensures { Reads (reads_part spec.Typed tokens.old) result tokens.new }
{
    let ty = match variable_type(tokens) {
        Ok(ty) => ty,
        Err(fail) => return Err(fail),
    };
    match not_null(tokens) {
        Ok(is_not_null) => match default(alloc, tokens) {
            Ok(default) => Ok((ty, (is_not_null, default))),
            Err(fail) => Err(fail),
        },
        Err(fail) => Err(fail),
    }
}

// A variable, behind CONSTANT if it is that.
fn variable(
    alloc: Global,
    tokens: &mut Tokens<'_>,
    is_constant: bool,
) -> Result<DeclarationKind, Fail>
    ensures { Reads (reads (make (λ p. d.Variable is_constant p.0 p.1.0 p.1.1)
        (part spec.Typed)) tokens.old) result tokens.new }
{
    match typed(alloc, tokens) {
        Ok((ty, (is_not_null, default))) => Ok(DeclarationKind::Variable {
            is_constant,
            ty,
            is_not_null,
            default,
        }),
        Err(fail) => Err(fail),
    }
}

// [CONSTANT] type [NOT NULL] [default];
fn variable_declared(alloc: Global, tokens: &mut Tokens<'_>) -> Result<DeclarationKind, Fail>
    ensures { Reads (reads_part spec.VariableDeclared tokens.old) result tokens.new }
{
    if sees_pair(tokens, &[Mark::Word("constant")], &[Mark::Name]) {
        if tokens.eat(Mark::Word("constant")) {
            return variable(alloc, tokens, true);
        }
        return Err(Fail::Syntax);
    }
    variable(alloc, tokens, false)
}

/// What is declared, behind its name.
pub fn declared(alloc: Global, tokens: &mut Tokens<'_>) -> Result<DeclarationKind, Fail>
    ensures { Reads (reads_part spec.Declared tokens.old) result tokens.new }
{
    if sees_pair(tokens, &CURSOR_WORDS, &BEHIND_CURSOR_WORDS) {
        return cursor_declared(alloc, tokens);
    }
    variable_declared(alloc, tokens)
}
