//! Whole schemas.

ghost use Rattle.std.specs.Prelude.{◌≡◌, ◌≢◌, ◌-◌, ◌<◌, ◌^◌, List, length, drop, Ok, Err, IfOk, IfErr, MatchResult};
ghost use Rattle.std.specs.Str.{IsUtf8};
ghost use Rattle.std.specs.List.{All};
ghost use Rattle.phrases.specs.Parsers.{ended, Ends};
ghost use Rattle.sql_read.specs.SchemaParsers as parsers;
ghost use Rattle.sql_read.specs.Forms.{IsFormed};
ghost use Rattle.sql_read.specs.SchemaText.{schema_of, read_tokens, schema_tokens, refusal_at, own_kind, kind_at, place_of, IsSchema, IsRefusal};
ghost use Rattle.sql_read.specs.declared.definition.TableDef.{TableDef as Definition};
ghost use Rattle.sql_read.specs.declared.refusal.SqlRefusal.TheVariants.{NoMemory};

use crate::definition::TableDef;
use crate::fault::Fault;
use crate::kind::Kind;
use crate::listing::Listing;
use crate::refusal::{SqlKind, SqlRefusal};
use crate::schema::runs;
use crate::token_list::{Token, tokens};
use phrases::{Cursor, ReadError};
use std::alloc::Global;
use std::str::from_utf8;

/// The greatest number of tokens of a schema.
const LIMIT: usize = 16384;

fn whole(
    alloc: Global,
    text: &[u8],
    tokens: &[Token],
) -> Result<Listing<TableDef>, ReadError<Fault>>
    ensures { Ends (ended Fault.Unexpected (parsers.schema text.now tokens.now)) result }
{
    let mut cursor = Cursor::new(tokens);
    let run = runs(alloc, text, &mut cursor)?;
    if cursor.left() == 0 {
        Ok(run.tables)
    } else {
        Err(ReadError::Refused(Fault::Unexpected, cursor.left()))
    }
}

/// The kind of a refusal of a token for its own sake, wherever it stands.
pub fn refused_for_itself(kind: Kind) -> Option<SqlKind>
    ensures { result ≡ own_kind kind }
{
    match kind {
        Kind::BadToken => Some(SqlKind::BadToken),
        Kind::TooWide => Some(SqlKind::NumberTooWide),
        Kind::Past => Some(SqlKind::TooLong),
        _ => None,
    }
}

/// The refusal at the first of these tokens, or at the end.
fn refusal(text: &[u8], rest: &[Token]) -> SqlRefusal
    requires { length text.now < 2 ^ 32 }
    ensures { result ≡ refusal_at text.now rest.now }
{
    match rest {
        [] => SqlRefusal::Bad {
            at: text.len() as u32,
            kind: SqlKind::Unexpected,
        },
        [t, ..] => SqlRefusal::Bad {
            at: t.at,
            kind: refused_for_itself(t.kind).unwrap_or(SqlKind::Unexpected),
        },
    }
}

fn last(tokens: &[Token], left: usize) -> &[Token]
    ensures { result.now ≡ drop (length tokens.now - left) tokens.now }
{
    &tokens[tokens.len().saturating_sub(left)..]
}

fn read_text(alloc: Global, text: &[u8]) -> Result<Vec<TableDef>, SqlRefusal>
    requires { length text.now < 2 ^ 32 }
    ensures { MatchResult result (λ v. read_tokens text.now (schema_tokens text.now) ≡ Ok v.items) (λ e. e ≢ NoMemory → read_tokens text.now (schema_tokens text.now) ≡ Err e) }
{
    let tokens = tokens(alloc, text, LIMIT)?;
    match whole(alloc, text, tokens.as_slice()) {
        Ok(tables) => Ok(tables.into_vec()),
        Err(ReadError::NoMemory) => Err(SqlRefusal::NoMemory),
        Err(ReadError::Refused(_, left)) => Err(refusal(text, last(tokens.as_slice(), left))),
    }
}

fn read_bytes(alloc: Global, bytes: &[u8]) -> Result<Vec<TableDef>, SqlRefusal>
    requires { length bytes.now < 2 ^ 32 }
    ensures { MatchResult result (λ v. schema_of bytes.now ≡ Ok v.items) (λ e. e ≢ NoMemory → schema_of bytes.now ≡ Err e) }
{
    match from_utf8(bytes) {
        Ok(_) => read_text(alloc, bytes),
        Err(e) => Err(SqlRefusal::Bad {
            at: e.valid_up_to() as u32,
            kind: SqlKind::NotText,
        }),
    }
}

/// The table definitions of a schema's text, in order, or the first refusal.
///
/// The text is `[create {";" create} [";"]]` with
/// `create = CREATE TABLE name "(" part {"," part} ")"`,
/// `part = name type {NOT NULL | PRIMARY KEY} | PRIMARY KEY "(" name ")"` and
/// `type = INTEGER | INT | BIGINT | DATE | CHAR ["(" integer ")"] | VARCHAR "(" integer ")" | DECIMAL "(" integer ["," integer] ")"`.
/// It has at most 16,384 tokens.
pub fn read_schema(alloc: Global, bytes: &[u8]) -> Result<Vec<TableDef>, SqlRefusal>
    requires { length bytes.now < 2 ^ 32 }
    // What is read is a schema with those definitions.
    ensures found { IfOk result (λ v. IsSchema bytes.now v.items) }
    // Its tables and columns are named by words, and each table has a column or a key.
    ensures formed { IfOk result (λ v. All IsFormed v.items) }
    // A schema is read, and as no other definitions, unless memory runs out.
    ensures only { (defs : List Definition) → IsSchema bytes.now defs → MatchResult result (λ v. v.items ≡ defs) (λ e. e ≡ NoMemory) }
    // What is refused is refused at its first refusal.
    ensures refused { IfErr result (IsRefusal bytes.now) }
    // The answer is one function of the text, unless memory runs out.
    ensures answer { MatchResult result (λ v. schema_of bytes.now ≡ Ok v.items) (λ e. e ≢ NoMemory → schema_of bytes.now ≡ Err e) }
{
    read_bytes(alloc, bytes)
}
