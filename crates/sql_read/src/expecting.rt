//! One token at a time.

ghost use Rattle.std.specs.Prelude.{◌≡◌, length, Some, None};
ghost use Rattle.phrases.specs.Parsers.{Reads, next, head};
ghost use Rattle.phrases.specs.Parsers as parsers;
ghost use Rattle.sql_read.specs.Schema as grammar;
ghost use Rattle.sql_read.specs.SchemaParsers as spec;

use crate::fault::Fault;
use crate::kind::{Kind, same_kind};
use crate::token_list::Token;
use phrases::{Cursor, ReadError};

/// Whether the next token is of the kind.
pub fn is_next(tokens: &Cursor<'_, Token>, kind: Kind) -> bool
    ensures { result ≡ next (grammar.is kind) tokens.now }
{
    match tokens.first() {
        None => false,
        Some(t) => same_kind(t.kind, kind),
    }
}

/// The next token, which is of the kind. The fault is that of any other token, and of the end.
#[tactic(auto, unfolding(phrases::specs::Parsers::expect))]
pub fn expect_kind<F: Copy>(
    tokens: &mut Cursor<'_, Token>,
    kind: Kind,
    fault: F,
) -> Result<Token, ReadError<F>>
    ensures { Reads (parsers.expect fault (grammar.is kind) tokens.old) result tokens.new }
{
    match tokens.first() {
        Some(t) if same_kind(t.kind, kind) => {
            let _taken = tokens.take();
            Ok(t)
        }
        _ => Err(ReadError::Refused(fault, tokens.left())),
    }
}

/// The next token of a schema, which is of the kind.
pub fn expect(tokens: &mut Cursor<'_, Token>, kind: Kind) -> Result<Token, ReadError<Fault>>
    ensures { Reads (spec.expect kind tokens.old) result tokens.new }
{
    expect_kind(tokens, kind, Fault::Unexpected)
}
