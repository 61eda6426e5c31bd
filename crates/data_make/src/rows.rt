//! The table, row by row.

ghost use Rattle.std.specs.Prelude.{◌≡◌, ◌≤◌, ◌<◌, ◌^◌, ◌++◌, IfOk, OnOk};
ghost use Rattle.data_make.specs.Job as spec;

use crate::NoMemory;
use answer_print::dates::date_text;
use itoa::Buffer;
use std::alloc::Global;

/// The table of a seed and a number of rows, as CSV text: a header, then the rows from 1 on, each ended by a line feed.
pub fn make_table(alloc: Global, seed: u64, rows: u32) -> Result<Vec<u8>, NoMemory>
    requires seed { seed < 2 ^ 63 }
    requires some { 1 ≤ rows }
    requires few { rows ≤ 2 ^ 20 }
    ensures { IfOk result (λ table. table.items ≡ spec.made_table seed rows) }
{
    let mut table = Vec::from_slice(alloc, b"id,kind,shipped,amount\n")?;
    let mut date = Vec::new(alloc);
    for i in 1..rows + 1 {
        push_row(seed, i, &mut date, &mut table)?;
    }
    Ok(table)
}

/// A row more. What `date` holds is of no matter: it is room for one date.
fn push_row(seed: u64, i: u32, date: &mut Vec<u8>, table: &mut Vec<u8>) -> Result<(), NoMemory>
    ensures { OnOk result (table.new.items ≡ table.old.items ++ spec.made_row seed i) }
{
    table.extend_from_slice(Buffer::new().format(i).as_bytes())?;
    table.push(b',')?;
    table.extend_from_slice(kind_name(drawn(seed, i, 1)))?;
    table.push(b',')?;
    date_text(i128::from(FIRST_DAY + drawn(seed, i, 2) % DAYS), date)?;
    table.extend_from_slice(date.as_slice())?;
    table.push(b',')?;
    push_amount(drawn(seed, i, 3), table)
}

/// 1992-01-01, counted from 1970-01-01.
const FIRST_DAY: u32 = 8035;

/// The days of the seven years from 1992 on.
const DAYS: u32 = 2557;

/// The amount of a drawn number more, and the end of its line.
fn push_amount(n: u32, table: &mut Vec<u8>) -> Result<(), NoMemory>
    ensures { OnOk result (table.new.items ≡ table.old.items ++ spec.amount_end n) }
{
    let amount = i64::from(n) - 500_000;
    table.extend_from_slice(Buffer::new().format(amount).as_bytes())?;
    table.extend_from_slice(b"\n")
}

/// The number that is drawn for a row and one of its columns.
fn drawn(seed: u64, i: u32, k: u32) -> u32
    requires { k ≤ 3 }
    ensures value { result ≡ spec.drawn seed i k }
    ensures bound { result < 1000003 }
{
    let start = seed % 1_000_003 * 7919;
    let step = u64::from(i) * u64::from(104_729 + k);
    ((start + step) % 1_000_003) as u32
}

/// The kind of a drawn number.
fn kind_name(n: u32) -> &'static [u8]
    ensures { result.now ≡ spec.kind_name n }
{
    match n % 4 {
        0 => b"AIR",
        1 => b"RAIL",
        2 => b"SHIP",
        _ => b"TRUCK",
    }
}
