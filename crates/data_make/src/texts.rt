//! The texts beside the table.

ghost use Rattle.std.specs.Prelude.{◌≡◌};
ghost use Rattle.data_make.specs.Job as spec;

/// The schema: the table `made`, of a key, a kind, a date and an amount.
pub fn made_schema() -> &'static [u8]
    ensures { result.now ≡ spec.made_schema }
{
    b"CREATE TABLE made (id INTEGER NOT NULL PRIMARY KEY, kind VARCHAR(5) NOT NULL, shipped DATE NOT NULL, amount INTEGER NOT NULL);"
}

/// The query: for each kind the number, the total and the mean of the amounts that were shipped from March 1992 on.
pub fn made_query() -> &'static [u8]
    ensures { result.now ≡ spec.made_query }
{
    b"SELECT kind, COUNT(*) AS n, SUM(amount) AS total, AVG(amount) AS mean FROM made WHERE shipped >= DATE '1992-03-01' GROUP BY kind ORDER BY kind"
}
