//! Balances and floors of the participants.
ghost use Rattle.std.specs.Prelude.{◌≡◌, ◌↔◌, IsTrue, OnOk, OnErr, ◌^◌, ◌<◌, ◌+ℤ◌, ◌≤ℤ◌, pos, [], ◌∷◌, ◌++◌, length};
ghost use Rattle.std.specs.Slice.Iter.{iter_rest};
ghost use Rattle.rtgs_gridlock.specs.Choices.{position_of, AreFloored};

use crate::out_of_memory::OutOfMemory;
use std::alloc::Global;
use std::marker::Model;
use std::slice;

/// A participant's balance and the floor that it may not pass, both in cents.
#[derive(Clone, Copy, Debug, PartialEq, Eq)]
pub struct Position {
    pub balance: i64,
    pub floor: i64,
}

/// The position of each participant, by its index. A clause sees the list of them.
#[derive(Debug, Drop)]
pub struct Positions {
    list: Vec<Position>,
}

impl Model for Positions {
    ghost use Rattle.std.specs.Prelude.{List};
    ghost use Rattle.rtgs_gridlock.specs.declared.positions.Position.{Position};

    ghost Value = { List Position };

    ghost view = { λ positions. positions.list.items };
}

impl Positions {
    /// The positions of no participants.
    pub fn new(alloc: Global) -> Positions
        ensures { result ≡ [] }
    {
        Positions {
            list: Vec::new(alloc),
        }
    }

    /// Adds the position of the next participant.
    pub fn push(&mut self, position: Position) -> Result<(), OutOfMemory>
        ensures ok { OnOk result (self.new ≡ self.old ++ position ∷ []) }
        ensures err { OnErr result (self.new ≡ self.old) }
    {
        self.list.push(position)?;
        Ok(())
    }

    /// How many participants there are.
    pub fn len(&self) -> usize
        ensures { result ≡ length self.now }
    {
        self.list.len()
    }

    /// Whether there are no participants.
    pub fn is_empty(&self) -> bool
        ensures { IsTrue result ↔ (self.now ≡ []) }
    {
        self.list.is_empty()
    }

    /// The positions in the order of their indexes.
    pub fn iter(&self) -> slice::Iter<'_, Position>
        ensures { iter_rest result ≡ self.now }
    {
        self.list.iter()
    }

    /// Whether each balance is at its floor or above.
    pub fn are_floored(&self) -> bool
        ensures { IsTrue result ↔ AreFloored self.now }
    {
        self.list
            .iter()
            .all(|position| position.floor <= position.balance)
    }

    /// How many cents a participant's balance is above its floor.
    pub(crate) fn headroom(&self, index: usize) -> u128
        requires index { index < length self.now }
        requires floored { (position_of self.now index).floor ≤ℤ (position_of self.now index).balance }
        ensures value { (position_of self.now index).floor +ℤ pos result ≡ (position_of self.now index).balance }
        ensures small { result < 2 ^ 64 }
    {
        let Position { balance, floor } = self.list[index];
        u128::from(balance.abs_diff(floor))
    }
}
