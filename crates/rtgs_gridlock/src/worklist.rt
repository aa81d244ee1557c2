//! The participants that are still to be tested.
ghost use Rattle.std.specs.Prelude.{◌≡◌, ℕ, ◌<◌, ◌≤◌, true, false, length, replicate, slice_set, MatchOption, IfOk};
ghost use Rattle.rtgs_gridlock.specs.Listed.{IsOn, on_count};

use std::alloc::{AllocError, Global};
use std::marker::Model;

/// The participants that wait for their test, none of them twice. A clause sees, for each index,
/// whether it stands here.
#[derive(Drop)]
pub struct Worklist {
    stack: Vec<usize>,
    is_listed: Vec<bool>,
}

impl Model for Worklist {
    ghost use Rattle.std.specs.Prelude.{Bool, List, ◌≤◌, vec_len, vec_capacity};
    ghost use Rattle.rtgs_gridlock.specs.Listed.{IsListed};

    ghost Value = { List Bool };

    ghost view = { λ w. w.is_listed.items };

    ghost invariant = { λ w. IsListed w.stack.items w.is_listed.items
        × (vec_len w.is_listed ≤ vec_capacity w.stack) };
}

impl Worklist {
    /// An empty list, for indexes below `capacity`.
    pub fn reserve(alloc: Global, capacity: usize) -> Result<Worklist, AllocError>
        ensures { IfOk result (λ list. list ≡ replicate capacity false) }
    {
        let stack = Vec::with_capacity(alloc, capacity)?;
        let is_listed = vec![in alloc; false; capacity]?;
        Ok(Worklist { stack, is_listed })
    }

    /// Adds an index, where it isn't there.
    pub fn put(&mut self, index: usize)
        requires { index < length self.old }
        ensures { self.new ≡ slice_set self.old index true }
    {
        if !self.is_listed[index] {
            self.is_listed[index] = true;
            self.stack.push_reserved(index);
        }
    }

    /// Takes an index out, the one that was added last.
    pub fn take(&mut self) -> Option<usize>
        ensures { MatchOption result
            ((self.new ≡ self.old) × (on_count self.old ≡ 0))
            (λ index. (index < length self.old) × IsOn self.old index × (self.new ≡ slice_set self.old index false)) }
    {
        let index = self.stack.pop()?;
        self.is_listed[index] = false;
        Some(index)
    }

    /// Makes the list that of the first indexes.
    pub fn fill(&mut self, count: usize)
        requires { count ≤ length self.old }
        ensures reserved { length self.new ≡ length self.old }
        ensures all { (p : ℕ) → p < count → IsOn self.new p }
        ensures only { (p : ℕ) → IsOn self.new p → p < count }
        ensures few { on_count self.new ≤ count }
    {
        while let Some(_index) = self.take() {}
        for index in 0..count {
            self.put(index);
        }
    }
}
