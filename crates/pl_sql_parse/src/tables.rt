//! CREATE TABLE: PostgreSQL manual, "CREATE TABLE".

ghost use Rattle.pl_grammar.specs.Parser.{Reads, listed};
ghost use Rattle.pl_grammar.specs.Words as w;
ghost use Rattle.pl_sql_parse.specs.Grammar as spec;
ghost use Rattle.pl_sql_parse.specs.FirstFollow.{reads, reads_part};

use crate::changes::{bracketed_names, columns};
use crate::lists::{Piece, all_pieces, pieces};
use crate::trees::column_of;
use pl_base::{Held, List};
use pl_expr_parse::{read_expression, read_operand, read_type};
use pl_grammar::{Fail, Mark, Tokens};
use pl_lex::{Keyword, Sign};
use pl_tree::{ColumnRule, ColumnRuleKind, Definition, Element, Expr, NewTable, TableRule};
use std::alloc::Global;

// What a rule of the whole table begins with.
const TABLE_RULES: [Mark; 4] = [
    Mark::Keyword(Keyword::Check),
    Mark::Keyword(Keyword::Unique),
    Mark::Keyword(Keyword::Primary),
    Mark::Keyword(Keyword::Foreign),
];

// What a rule of a column begins with.
const COLUMN_RULES: [Mark; 8] = [
    Mark::Keyword(Keyword::Constraint),
    Mark::Keyword(Keyword::Not),
    Mark::Keyword(Keyword::Null),
    Mark::Keyword(Keyword::Default),
    Mark::Keyword(Keyword::Check),
    Mark::Keyword(Keyword::Unique),
    Mark::Keyword(Keyword::Primary),
    Mark::Keyword(Keyword::References),
];

// [IF NOT EXISTS]
pub(crate) fn if_not_exists(tokens: &mut Tokens<'_>) -> Result<bool, Fail>
    ensures { Reads (reads_part spec.IfNotExists tokens.old) result tokens.new }
{
    if !tokens.eat(Mark::Keyword(Keyword::If)) {
        return Ok(false);
    }
    read!(tokens.expect(Mark::Keyword(Keyword::Not)));
    read!(tokens.expect(Mark::Keyword(Keyword::Exists)));
    Ok(true)
}

// (e)
pub(crate) fn bracketed_expression(alloc: Global, tokens: &mut Tokens<'_>) -> Result<Expr, Fail>
    ensures { Reads (reads_part spec.BracketedExpression tokens.old) result tokens.new }
{
    read!(tokens.expect(Mark::Sign(Sign::Open)));
    let expression = Held::new(read!(read_expression(alloc, tokens)));
    read!(tokens.expect(Mark::Sign(Sign::Close)));
    Ok(expression.into_inner())
}

// (names) REFERENCES name [(names)]
pub(crate) fn foreign_key(alloc: Global, tokens: &mut Tokens<'_>) -> Result<TableRule, Fail>
    ensures { Reads (reads_part spec.ForeignKey tokens.old) result tokens.new }
{
    let key = read!(bracketed_names(alloc, tokens));
    read!(tokens.expect(Mark::Keyword(Keyword::References)));
    let table = read!(tokens.table_name());
    let referenced = read!(columns(alloc, tokens));
    Ok(TableRule::ForeignKey {
        columns: key,
        table,
        referenced,
    })
}

// A rule of the whole table.
pub(crate) fn table_rule(alloc: Global, tokens: &mut Tokens<'_>) -> Result<TableRule, Fail>
    ensures { Reads (reads_part spec.TableRule tokens.old) result tokens.new }
{
    if tokens.eat(Mark::Keyword(Keyword::Check)) {
        return Ok(TableRule::Check(read!(bracketed_expression(alloc, tokens))));
    }
    if tokens.eat(Mark::Keyword(Keyword::Unique)) {
        return Ok(TableRule::Unique(read!(bracketed_names(alloc, tokens))));
    }
    if tokens.eat(Mark::Keyword(Keyword::Primary)) {
        read!(tokens.expect(Mark::Word("key")));
        return Ok(TableRule::PrimaryKey(read!(bracketed_names(alloc, tokens))));
    }
    read!(tokens.expect(Mark::Keyword(Keyword::Foreign)));
    read!(tokens.expect(Mark::Word("key")));
    foreign_key(alloc, tokens)
}

// name [(name)]
pub(crate) fn referenced(tokens: &mut Tokens<'_>) -> Result<ColumnRuleKind, Fail>
    ensures { Reads (reads_part spec.Referenced tokens.old) result tokens.new }
{
    let table = read!(tokens.table_name());
    if !tokens.eat(Mark::Sign(Sign::Open)) {
        return Ok(ColumnRuleKind::References {
            table,
            column: None,
        });
    }
    let column = read!(tokens.name());
    read!(tokens.expect(Mark::Sign(Sign::Close)));
    Ok(ColumnRuleKind::References {
        table,
        column: Some(column),
    })
}

// CHECK (e) | UNIQUE | PRIMARY KEY | REFERENCES name [(name)]
fn other_rule_kind(alloc: Global, tokens: &mut Tokens<'_>) -> Result<ColumnRuleKind, Fail>
    ensures { Reads (reads spec.other_rule_kind tokens.old) result tokens.new }
{
    if tokens.eat(Mark::Keyword(Keyword::Check)) {
        return Ok(ColumnRuleKind::Check(read!(bracketed_expression(alloc, tokens))));
    }
    if tokens.eat(Mark::Keyword(Keyword::Unique)) {
        return Ok(ColumnRuleKind::Unique);
    }
    if tokens.eat(Mark::Keyword(Keyword::Primary)) {
        read!(tokens.expect(Mark::Word("key")));
        return Ok(ColumnRuleKind::PrimaryKey);
    }
    read!(tokens.expect(Mark::Keyword(Keyword::References)));
    referenced(tokens)
}

// What a rule of a column asks.
pub(crate) fn column_rule_kind(
    alloc: Global,
    tokens: &mut Tokens<'_>,
) -> Result<ColumnRuleKind, Fail>
    ensures { Reads (reads_part spec.ColumnRuleKind tokens.old) result tokens.new }
{
    if tokens.eat(Mark::Keyword(Keyword::Not)) {
        read!(tokens.expect(Mark::Keyword(Keyword::Null)));
        return Ok(ColumnRuleKind::NotNull);
    }
    if tokens.eat(Mark::Keyword(Keyword::Null)) {
        return Ok(ColumnRuleKind::Null);
    }
    if tokens.eat(Mark::Keyword(Keyword::Default)) {
        return Ok(ColumnRuleKind::Default(read!(read_operand(alloc, tokens))));
    }
    other_rule_kind(alloc, tokens)
}

// [CONSTRAINT name] rule
pub(crate) fn column_rule(alloc: Global, tokens: &mut Tokens<'_>) -> Result<ColumnRule, Fail>
    ensures { Reads (reads_part spec.ColumnRule tokens.old) result tokens.new }
{
    if tokens.eat(Mark::Keyword(Keyword::Constraint)) {
        let name = read!(tokens.name());
        let rule = read!(column_rule_kind(alloc, tokens));
        return Ok(ColumnRule {
            name: Some(name),
            rule,
        });
    }
    let rule = read!(column_rule_kind(alloc, tokens));
    Ok(ColumnRule { name: None, rule })
}

impl Piece for ColumnRule {
    ghost use Rattle.pl_sql_parse.specs.Grammar as spec;
    ghost use Rattle.pl_sql_parse.specs.FirstFollow.{reads_part};

    ghost reader = { reads_part spec.ColumnRule };

    fn read(alloc: Global, tokens: &mut Tokens<'_>) -> Result<ColumnRule, Fail> {
        column_rule(alloc, tokens)
    }
}

// {rule}
pub(crate) fn column_rules(alloc: Global, tokens: &mut Tokens<'_>) -> Result<List<ColumnRule>, Fail>
    ensures { Reads (reads_part spec.ColumnRules tokens.old) result tokens.new }
{
    all_pieces(alloc, tokens, &COLUMN_RULES)
}

// name type {rule}
pub(crate) fn column(alloc: Global, tokens: &mut Tokens<'_>) -> Result<Element, Fail>
    ensures { Reads (reads_part spec.Column tokens.old) result tokens.new }
{
    let name = read!(tokens.name());
    let ty = read!(read_type(alloc, tokens));
    let rules = read!(column_rules(alloc, tokens));
    column_of(name, ty, rules)
}

// A column, or a rule of the whole table.
pub(crate) fn element(alloc: Global, tokens: &mut Tokens<'_>) -> Result<Element, Fail>
    ensures { Reads (reads_part spec.Element tokens.old) result tokens.new }
{
    if tokens.eat(Mark::Keyword(Keyword::Constraint)) {
        let name = read!(tokens.name());
        let rule = read!(table_rule(alloc, tokens));
        return Ok(Element::Rule {
            name: Some(name),
            rule,
        });
    }
    if tokens.begins(&TABLE_RULES) {
        let rule = read!(table_rule(alloc, tokens));
        return Ok(Element::Rule { name: None, rule });
    }
    column(alloc, tokens)
}

impl Piece for Element {
    ghost use Rattle.pl_sql_parse.specs.Grammar as spec;
    ghost use Rattle.pl_sql_parse.specs.FirstFollow.{reads_part};

    ghost reader = { reads_part spec.Element };

    fn read(alloc: Global, tokens: &mut Tokens<'_>) -> Result<Element, Fail> {
        element(alloc, tokens)
    }
}

// element {, element}
fn element_list(alloc: Global, tokens: &mut Tokens<'_>) -> Result<List<Element>, Fail>
    ensures { Reads (listed w.COMMA (reads_part spec.Element) tokens.old) result tokens.new }
{
    pieces(alloc, tokens)
}

// CREATE TABLE, behind these words.
pub(crate) fn new_table(alloc: Global, tokens: &mut Tokens<'_>) -> Result<Definition, Fail>
    ensures { Reads (reads_part spec.NewTable tokens.old) result tokens.new }
{
    let if_not_exists = read!(if_not_exists(tokens));
    let name = read!(tokens.table_name());
    read!(tokens.expect(Mark::Sign(Sign::Open)));
    let elements = read!(element_list(alloc, tokens));
    read!(tokens.expect(Mark::Sign(Sign::Close)));
    Ok(Definition::CreateTable(NewTable {
        if_not_exists,
        name,
        elements,
    }))
}
