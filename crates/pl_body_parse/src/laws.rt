//! What follows from the definitions.

ghost use Rattle.std.specs.Prelude.{◌≡◌, ◌↔◌, Some, List as Items};
ghost use Rattle.pl_bodies.specs.declared.statement.Body.{Body as Tree};
ghost use Rattle.pl_lex.specs.Characters.{Text};
ghost use Rattle.pl_lex.specs.declared.token.Token.{Token as OneToken};
ghost use Rattle.pl_body_parse.specs.Computed.{body_of_tokens};
ghost use Rattle.pl_body_parse.specs.Spells.{SpellsBody};

/// Tokens spell one body or none: the one that `body_of_tokens` computes.
pub fn one_body()
    ensures is { (text : Text) (tokens : Items OneToken) (body : Tree)
        → (body_of_tokens text tokens ≡ Some body) ↔ SpellsBody text body tokens }
{}
