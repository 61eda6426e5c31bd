//! The kinds of tokens, and the reserved words.

ghost use Rattle.std.specs.Prelude.{◌≡◌, map};
ghost use Rattle.std.specs.Str.{str_eq_ignore_ascii_case};
ghost use Rattle.sql_read.specs.Lexis as spec;
ghost use Rattle.sql_read.specs.Kinds.{same_kind as same_kind_lem};
ghost use Rattle.sql_read.specs.Reserved.{reserved_words};

/// What a token is. A word that is reserved has a kind of its own; every other word is a [`Kind::Name`].
#[derive(Clone, Copy, PartialEq, Eq)]
pub enum Kind {
    /// Blanks, or a comment: no token of the list.
    Blank,
    /// A character that begins no token, a word of more than 64 bytes, or a text literal that is not closed.
    BadToken,
    /// A number whose digits make more than 2^127 - 1, or with more than 18 digits after its point.
    TooWide,
    /// The token after the last that a text may have.
    Past,
    Name,
    /// An integer of at most 2^127 - 1.
    Digits,
    /// A number with a point: digits of at most 2^127 - 1 together, 1 to 18 of them after the point.
    Fraction,
    /// A text literal.
    Quoted,
    And,
    As,
    Asc,
    Avg,
    Between,
    Bigint,
    By,
    Char,
    Coalesce,
    Count,
    Create,
    Cross,
    Date,
    Day,
    Decimal,
    Desc,
    Distinct,
    From,
    Group,
    Having,
    In,
    Inner,
    Int,
    Integer,
    Interval,
    Is,
    Join,
    Key,
    Max,
    Min,
    Not,
    Null,
    On,
    Or,
    Order,
    Primary,
    Select,
    Sum,
    Table,
    Varchar,
    Where,
    OpenParen,
    CloseParen,
    Comma,
    Dot,
    Semicolon,
    Star,
    Plus,
    Minus,
    /// A `+` between a date and INTERVAL, which belongs to the date: a `+` that a reader of queries has found there.
    StepPlus,
    /// A `-` between a date and INTERVAL.
    StepMinus,
    Slash,
    Equal,
    Differs,
    Less,
    LessEqual,
    Greater,
    GreaterEqual,
}

/// The reserved words, which are no names.
const RESERVED: [(&[u8], Kind); 41] = [
    (b"AND", Kind::And),
    (b"AS", Kind::As),
    (b"ASC", Kind::Asc),
    (b"AVG", Kind::Avg),
    (b"BETWEEN", Kind::Between),
    (b"BIGINT", Kind::Bigint),
    (b"BY", Kind::By),
    (b"CHAR", Kind::Char),
    (b"COALESCE", Kind::Coalesce),
    (b"COUNT", Kind::Count),
    (b"CREATE", Kind::Create),
    (b"CROSS", Kind::Cross),
    (b"DATE", Kind::Date),
    (b"DAY", Kind::Day),
    (b"DECIMAL", Kind::Decimal),
    (b"DESC", Kind::Desc),
    (b"DISTINCT", Kind::Distinct),
    (b"FROM", Kind::From),
    (b"GROUP", Kind::Group),
    (b"HAVING", Kind::Having),
    (b"IN", Kind::In),
    (b"INNER", Kind::Inner),
    (b"INT", Kind::Int),
    (b"INTEGER", Kind::Integer),
    (b"INTERVAL", Kind::Interval),
    (b"IS", Kind::Is),
    (b"JOIN", Kind::Join),
    (b"KEY", Kind::Key),
    (b"MAX", Kind::Max),
    (b"MIN", Kind::Min),
    (b"NOT", Kind::Not),
    (b"NULL", Kind::Null),
    (b"ON", Kind::On),
    (b"OR", Kind::Or),
    (b"ORDER", Kind::Order),
    (b"PRIMARY", Kind::Primary),
    (b"SELECT", Kind::Select),
    (b"SUM", Kind::Sum),
    (b"TABLE", Kind::Table),
    (b"VARCHAR", Kind::Varchar),
    (b"WHERE", Kind::Where),
];

/// The reserved words with their kinds, each once and in order.
#[tactic(auto, unfolding(crate::specs::Reserved::reserved_words))]
fn reserved() -> &'static [(&'static [u8], Kind)]
    ensures { map (λ r. (r.0.now, r.1)) result.now ≡ reserved_words }
{
    &RESERVED
}

fn same_word(a: &[u8], b: &[u8]) -> bool
    ensures { result ≡ str_eq_ignore_ascii_case a.now b.now }
{
    a.eq_ignore_ascii_case(b)
}

fn lookup(mut table: &[(&[u8], Kind)], word: &[u8]) -> Kind
    ensures { result ≡ spec.lookup (map (λ k. (k.0.now, k.1)) table.entry.now) word.now }
{
    while let [entry, rest @ ..] = table {
        if same_word(entry.0, word) {
            return entry.1;
        }
        table = rest;
    }
    Kind::Name
}

/// The kind of a word: reserved, in upper or lower case, or a name.
#[tactic(auto, unfolding(crate::specs::Lexis::word_kind))]
pub fn word_kind(word: &[u8]) -> Kind
    ensures { result ≡ spec.word_kind word.now }
{
    lookup(reserved(), word)
}

/// Whether two kinds are one.
#[tactic(auto, unfolding(crate::specs::Kinds::same_kind))]
pub fn same_kind(a: Kind, b: Kind) -> bool
    ensures { result ≡ same_kind_lem a b }
{
    a == b
}
