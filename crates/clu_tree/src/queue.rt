//! A binary heap (Williams, 1964) of the leaves' bounds, which gives the next leaf of a best-first search in
//! logarithmic time. Of equal bounds the least key comes first, so the same search is made each time.

ghost use Rattle.std.specs.Prelude.{◌≡◌, ◌↔◌, ◌+◌, ◌<◌, ◌≤◌, ℕ, ℤ, [], ◌∷◌, length, IfSome, IsSome, OnOk};
ghost use Rattle.std.specs.List.Sorted.{IsPermutation};
ghost use Rattle.clu_tree.specs.Queue.{IsBest, queue_entry};

use std::alloc::{AllocError, Global};
use std::cmp::Reverse;
use std::collections::BinaryHeap;
use std::marker::Model;

/// Keys of nodes by their bounds, the greatest first, ties by the least key.
#[derive(Drop)]
pub(crate) struct Queue {
    heap: BinaryHeap<(i128, Reverse<usize>)>,
}

impl Model for Queue {
    ghost use Rattle.std.specs.Prelude.{◌-◌};
    ghost use Rattle.std.specs.BinaryHeap.{heap_items, heap_len, heap_capacity, IsHeap};
    ghost use Rattle.clu_tree.specs.Queue.{Entries, entry_cmp};

    ghost Value = { Entries };

    ghost view = { λ q. record { entries = heap_items q.heap; room = heap_capacity q.heap - heap_len q.heap } };

    ghost invariant = { λ q. IsHeap entry_cmp (heap_items q.heap) };
}

impl Queue {
    /// No entries.
    pub(crate) fn new(alloc: Global) -> Queue
        ensures { result.entries ≡ [] }
    {
        Queue {
            heap: BinaryHeap::new(alloc),
        }
    }

    /// Makes room for so many entries more.
    pub(crate) fn reserve(&mut self, more: usize) -> Result<(), AllocError>
        ensures same { self.new.entries ≡ self.old.entries }
        ensures room { OnOk result (more ≤ self.new.room) }
    {
        self.heap.reserve(more)
    }

    /// Puts an entry in.
    pub(crate) fn push(&mut self, bound: i128, key: usize)
        requires { 0 < self.old.room }
        ensures entries { IsPermutation (queue_entry bound key ∷ self.old.entries) self.new.entries }
        ensures room { self.old.room ≤ self.new.room + 1 }
    {
        let _ = self.heap.push((bound, Reverse(key)));
    }

    /// The best entry.
    pub(crate) fn top(&self) -> Option<(i128, usize)>
        ensures some { IsSome result ↔ (0 < length self.now.entries) }
        ensures best { IfSome result (λ top. IsBest self.now.entries top.0 top.1) }
    {
        match self.heap.peek() {
            None => None,
            Some(top) => Some((top.0, top.1.0)),
        }
    }

    /// Takes the best entry out.
    pub(crate) fn pop(&mut self)
        requires { 0 < length self.old.entries }
        ensures shorter { length self.new.entries < length self.old.entries }
        ensures best { (bound : ℤ) × (key : ℕ) × IsBest self.old.entries bound key
            × IsPermutation self.old.entries (queue_entry bound key ∷ self.new.entries) }
    {
        let _ = self.heap.pop();
    }
}
