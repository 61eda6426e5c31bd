//! The first of some findings.

ghost use Rattle.std.specs.Prelude.{◌≡◌, Option, Some, None};
ghost use Rattle.sql_types.specs.Findings as spec;

use crate::refusal::SchemaKind;

/// What is wrong, and at which byte.
#[derive(Clone, Copy)]
pub struct Finding {
    pub at: u32,
    pub kind: SchemaKind,
}

pub fn found(kind: SchemaKind, at: u32) -> Finding
    ensures { result ≡ spec.found kind at }
{
    Finding { at, kind }
}

fn comes_before(p: Finding, q: Finding) -> bool
    ensures { result ≡ spec.comes_before p q }
{
    p.at < q.at || (p.at == q.at && p.kind.rank() < q.kind.rank())
}

/// Whether a finding comes before the first so far.
pub fn improves(first: Option<Finding>, q: Finding) -> bool
    ensures { result ≡ spec.improves first q }
{
    match first {
        None => true,
        Some(p) => comes_before(q, p),
    }
}

/// The earlier of the first finding so far and one more.
pub fn earlier(first: Option<Finding>, q: Finding) -> Option<Finding>
    ensures { result ≡ spec.earlier first q }
{
    if improves(first, q) { Some(q) } else { first }
}
