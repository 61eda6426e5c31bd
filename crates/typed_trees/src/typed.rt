//! A query as it is meant: names are places in the catalog, and aggregates are places in a list.

use io_edge::Name;
use query_trees::{BinaryOp, Polarity, Sign};
use sql_read::{ColumnKind, Listing};
use sqlite_items::{Boxed, Items};

/// A column of FROM. Sources, and the columns of a table, count from 0.
#[derive(Clone, Copy)]
pub struct ColumnRef {
    pub source: u32,
    pub column: u32,
}

/// The type of a column.
#[derive(Clone, Copy)]
pub struct ColumnType {
    pub kind: ColumnKind,
    /// The width of a text in bytes, the precision of a decimal in digits, 0 for every other kind.
    pub width: u32,
    /// How many digits of a decimal stand after the point, 0 for every other kind.
    pub scale: u32,
}

/// An expression whose operands have the kinds that its operators take. Parentheses make no node.
///
/// A number is whole and unscaled: it stands for itself divided by ten to the power of its expression's scale.
#[derive(Drop)]
pub enum TypedExpr {
    /// A number that is not negative, without its point, and its scale: how many of its digits stand after the point.
    Number(u128, u32),
    /// A text literal.
    Text(Name),
    /// A date with its intervals: the days from 1970-01-01.
    Date(i32),
    Column(ColumnRef, ColumnType),
    /// An aggregate, by its place in the query's list, and its scale.
    Aggregate(u32, u32),
    Signed(Sign, Boxed<TypedExpr>),
    Not(Boxed<TypedExpr>),
    Binary(BinaryOp, Boxed<TypedExpr>, Boxed<TypedExpr>),
    /// A quotient by a number that is not 0: the sign and the digits.
    Divide(Boxed<TypedExpr>, Sign, u128),
    /// The tested value, the least and the greatest that it may be.
    Between(Polarity, Boxed<TypedExpr>, Boxed<TypedExpr>, Boxed<TypedExpr>),
    /// The tested value, and those that it may be.
    In(Polarity, Boxed<TypedExpr>, Items<TypedExpr>),
    /// Whether a value is null, or is not.
    IsNull(Polarity, Boxed<TypedExpr>),
    /// The first operand that is not null, and null where all are: the first, and the others.
    Coalesce(Boxed<TypedExpr>, Items<TypedExpr>),
}

/// What an aggregate makes of its argument's values.
#[derive(Clone, Copy)]
pub enum AggregateKind {
    Count,
    Sum,
    Min,
    Max,
    Avg,
}

/// An aggregate. It has no argument for `COUNT(*)` alone.
pub struct Aggregate {
    pub kind: AggregateKind,
    pub argument: Option<TypedExpr>,
}

// Written out here and below, so that letting go of one is a call, in place of a match over each form of its expressions.
impl Drop for Aggregate {
    fn drop(self) {
        let Aggregate {
            kind: _,
            argument: _,
        } = self;
    }
}

/// A table of FROM.
pub struct PlanSource {
    /// The table's place in the catalog.
    pub table: u32,
    /// The columns of the table that the query has, by their places.
    pub columns: Listing<u32>,
    /// Conditions on this table's rows alone.
    pub filter: Listing<TypedExpr>,
    /// For a key join the column to its left, and the place of its own column.
    pub join: Option<(ColumnRef, u32)>,
}

impl Drop for PlanSource {
    fn drop(self) {
        let PlanSource {
            table: _,
            columns: _,
            filter: _,
            join: _,
        } = self;
    }
}

/// What a key of ORDER BY is.
#[derive(Clone, Copy)]
pub enum KeyRef {
    /// An item, by its place from 0.
    Item(u32),
    Column(ColumnRef),
}

/// A key of ORDER BY.
#[derive(Clone, Copy)]
pub struct OrderKey {
    pub key: KeyRef,
    pub descending: bool,
}

/// A query as it is meant.
pub struct TypedQuery {
    /// The tables of FROM, in order.
    pub sources: Listing<PlanSource>,
    /// The parts of WHERE's condition that AND joins, in order.
    pub filter: Listing<TypedExpr>,
    /// The columns of GROUP BY, or those that DISTINCT selects.
    pub groups: Listing<ColumnRef>,
    /// The aggregates as they are written: those of the items, then those of HAVING.
    pub aggregates: Listing<Aggregate>,
    /// The condition of HAVING.
    pub having: Option<TypedExpr>,
    /// The items, each column that `*` stands for among them.
    pub items: Listing<TypedExpr>,
    /// The keys of ORDER BY.
    pub order: Listing<OrderKey>,
    /// The output name of each item.
    pub names: Listing<Name>,
}

impl Drop for TypedQuery {
    fn drop(self) {
        let TypedQuery {
            sources: _,
            filter: _,
            groups: _,
            aggregates: _,
            having: _,
            items: _,
            order: _,
            names: _,
        } = self;
    }
}
