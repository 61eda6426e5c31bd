//! Columns in the making, whose numbers are kept in 64 bits while they can be.
ghost use Rattle.std.specs.Prelude.{◌≡◌, ◌+◌, ◌++◌, ◌∷◌, [], ◌^◌, ◌<◌, ◌≤◌, true, length, IfOk, OnOk, OnErr};
ghost use Rattle.struct_vectors.specs.Makers.{MayKeep};
ghost use Rattle.slot_columns.specs.Builders.{BuilderValue};

use crate::NoMemory;
use control_vectors::Slot;
use std::alloc::Global;
use std::marker::Model;
use std::mem;
use struct_vectors::{Column, ColumnMaker};

/// A column in the making. The memory for its slots is taken at the start, and once more at the first
/// number that doesn't fit 64 bits, which moves the slots so far to 128 bits.
#[derive(Drop)]
pub struct ColumnBuilder {
    alloc: Global,
    room: u32,
    wide: bool,
    maker: ColumnMaker,
}

impl Model for ColumnBuilder {
    ghost use Rattle.std.specs.Prelude.{◌≡◌, ◌≤◌, ◌^◌};
    ghost use Rattle.slot_columns.specs.Builders.{BuilderValue};

    ghost Value = { BuilderValue };

    ghost view = { λ b. record { room = b.room; slots = b.maker.slots } };

    ghost invariant = { λ b. (b.room ≤ 2 ^ 22) × (b.maker.room ≡ b.room) × (b.maker.wide ≡ b.wide) };
}

impl ColumnBuilder {
    /// A builder with room for `n` slots.
    pub fn with_room(alloc: Global, n: u32) -> Result<ColumnBuilder, NoMemory>
        requires { n ≤ 2 ^ 22 }
        ensures { IfOk result (λ builder. builder ≡ record { room = n; slots = [] }) }
    {
        Ok(ColumnBuilder {
            alloc,
            room: n,
            wide: false,
            maker: ColumnMaker::with_room(alloc, n, false)?,
        })
    }

    /// Appends a slot. It takes memory at most once in a builder's life. Where there is none, the
    /// builder stays as it was.
    #[inline]
    pub fn push(&mut self, s: Slot) -> Result<(), NoMemory>
        requires { length self.old.slots < self.old.room }
        ensures pushed { OnOk result (self.new ≡ record self.old { slots = self.old.slots ++ s ∷ [] }) }
        ensures kept { OnErr result (self.new ≡ self.old) }
    {
        if !may_keep(self.wide, s) {
            widen(self.alloc, self.room, &mut self.maker)?;
            self.wide = true;
        }
        self.maker.push(s);
        Ok(())
    }

    /// The column of the slots that were pushed.
    pub fn done(self) -> Column
        ensures { result.slots ≡ self.slots }
    {
        self.maker.done()
    }
}

/// Moves the slots of a maker to 128 bits.
fn widen(alloc: Global, room: u32, maker: &mut ColumnMaker) -> Result<(), NoMemory>
    requires few { room ≤ 2 ^ 22 }
    requires room { maker.old.room ≡ room }
    requires within { length maker.old.slots ≤ room }
    ensures wide { OnOk result (maker.new ≡ record maker.old { wide = true }) }
    ensures kept { OnErr result (maker.new ≡ maker.old) }
{
    let wide = ColumnMaker::with_room(alloc, room, true)?;
    let narrow = mem::replace(maker, wide);
    push_all(maker, &narrow.done());
    Ok(())
}

/// Appends the slots of a column to a column that is kept in 128 bits.
fn push_all(maker: &mut ColumnMaker, column: &Column)
    requires room { length maker.old.slots + length column.now.slots ≤ maker.old.room }
    requires wide { maker.old.wide ≡ true }
    ensures { maker.new ≡ record maker.old { slots = maker.old.slots ++ column.now.slots } }
{
    for i in 0..column.len() {
        maker.push(column.get(i));
    }
}

/// Whether a maker may keep a slot: it is wide, or the slot is empty, or its number fits 64 bits.
#[inline]
fn may_keep(wide: bool, s: Slot) -> bool
    ensures { result ≡ true → MayKeep wide s }
{
    if wide {
        return true;
    }
    match s {
        Some(x) => i64::try_from(x).is_ok(),
        None => true,
    }
}
