//! The fields of a row.

ghost use Rattle.std.specs.Prelude.{◌≡◌, ◌++◌, ◌∷◌, ◌<◌, [], ℕ, ℤ, All, length, map, slice_get, Some, OnOk};
ghost use Rattle.csv.specs.Records.{fields_of, partial_of};
ghost use Rattle.typed_trees.specs.Types.{typed_as};
ghost use Rattle.answer_texts.specs.Fields.{value_field};
ghost use Rattle.answer_print.specs.Conditions.{IsOfKind, HoldsAt};
ghost use Rattle.answer_print.specs.Held.{number_value, text_at};
ghost use Rattle.answer_print.specs.Shown.{seen_item, seen_items, shown_field, shown_row};

use crate::NoMemory;
use crate::dates::date_text;
use crate::items::Item;
use crate::numbers::number_text;
use csv::ByteRecord;
use dict_codes::Dictionary;
use typed_trees::Kind;

/// Puts the fields of a place into a row. What `text` holds is of no matter: it is room for one field.
pub fn fill_row(
    dictionary: &Dictionary,
    items: &[Item],
    i: u32,
    text: &mut Vec<u8>,
    row: &mut ByteRecord,
) -> Result<(), NoMemory>
    requires within { All (λ it. i < length it.column.now.slots) items.now }
    requires values { All (λ it. HoldsAt i (seen_item it)) items.now }
    ensures fields { OnOk result (fields_of row.new ≡ shown_row dictionary.now (seen_items items.now) i) }
    ensures partial { OnOk result (partial_of row.new ≡ []) }
{
    row.clear();
    for item in items {
        push_field(dictionary, item, i, text, row)?;
    }
    Ok(())
}

/// A field more: an item's value at a place.
fn push_field(
    dictionary: &Dictionary,
    item: &Item,
    i: u32,
    text: &mut Vec<u8>,
    row: &mut ByteRecord,
) -> Result<(), NoMemory>
    requires within { i < length item.now.column.now.slots }
    requires value { HoldsAt i (seen_item item.now) }
    requires partial { partial_of row.old ≡ [] }
    ensures fields { OnOk result (fields_of row.new ≡ fields_of row.old ++ shown_field dictionary.now i (seen_item item.now) ∷ []) }
    ensures partial { OnOk result (partial_of row.new ≡ []) }
{
    match item.column.get(i) {
        None => row.push_field(b""),
        Some(z) => push_number(dictionary, item.kind, item.scale, z, text, row),
    }
}

/// A field more: what a number stands for.
fn push_number(
    dictionary: &Dictionary,
    kind: Kind,
    scale: u32,
    z: i128,
    text: &mut Vec<u8>,
    row: &mut ByteRecord,
) -> Result<(), NoMemory>
    requires value { IsOfKind kind z }
    requires partial { partial_of row.old ≡ [] }
    ensures fields { OnOk result (fields_of row.new ≡ fields_of row.old ++ value_field (typed_as kind scale) (number_value dictionary.now kind z) ∷ []) }
    ensures partial { OnOk result (partial_of row.new ≡ []) }
{
    match kind {
        Kind::Text => row.push_field(text_at(dictionary, z).as_bytes()),
        Kind::Date => {
            date_text(z, text)?;
            row.push_field(text.as_slice())
        }
        Kind::Number => {
            number_text(z, scale, text)?;
            row.push_field(text.as_slice())
        }
        Kind::Truth => {
            number_text(z, scale, text)?;
            row.push_field(text.as_slice())
        }
    }
}

/// The text of a code; none where the dictionary has no such code.
fn text_at<'a>(dictionary: &'a Dictionary, code: i128) -> &'a str
    ensures { result.now ≡ text_at dictionary.now code }
{
    if code < 0 || i128::from(dictionary.len()) <= code {
        return "";
    }
    match dictionary.text(code as u32) {
        Some(text) => text,
        None => "",
    }
}
