//! For each group the later ones with which it is left with more than 0: one list of places for each group, all in one run of
//! memory that is kept from node to node. A bad triangle has two such pairs, so the packing looks for third groups there alone.
ghost use Rattle.std.specs.Prelude.{◌≡◌, ◌+◌, ◌++◌, ◌∷◌, [], ◌<◌, ◌≤◌, ◌<ℤ◌, ◌≤ℤ◌, OnOk, ℕ, pos, length};
ghost use Rattle.clu_rows.specs.Table.{AreNearBelow, AreAllNear, HasList, near_at};

use clu_partition::{Place, Residual};
use std::alloc::{AllocError, Global};

/// A list of places for each group, one behind the other.
#[derive(Drop)]
pub struct NearLists {
    places: Vec<usize>,
    /// Where each list begins, and where the last one ends.
    bounds: Vec<usize>,
}

impl NearLists {
    /// No lists.
    pub fn new(alloc: Global) -> NearLists {
        NearLists {
            places: Vec::new(alloc),
            bounds: Vec::new(alloc),
        }
    }

    /// Lists anew, for each of the first places, the later ones that are left with more than 0 at it.
    pub fn list(&mut self, left: &Residual, count: usize) -> Result<(), AllocError>
        requires { count ≤ left.now.n }
        ensures { OnOk result (AreAllNear left.now count self.new) }
    {
        self.places.clear();
        self.bounds.clear();
        self.bounds.push(0)?;
        for i in 0..count {
            self.push_list(left, count, i)?;
        }
        Ok(())
    }

    /// The list of a place.
    pub fn of(&self, i: usize) -> &[usize]
        requires { HasList self.now i }
        ensures { result.now ≡ near_at self.now i }
    {
        &self.places[self.bounds[i]..self.bounds[i + 1]]
    }

    /// Puts the list of place i behind those before it.
    fn push_list(&mut self, left: &Residual, count: usize, i: usize) -> Result<(), AllocError>
        requires count { count ≤ left.now.n }
        requires i { i < count }
        requires near { AreNearBelow left.now count i self.old }
        ensures { OnOk result (AreNearBelow left.now count (i + 1) self.new) }
    {
        for z in i + 1..count {
            push_above(&mut self.places, left.get(Place(i), Place(z)), z)?;
        }
        self.bounds.push(self.places.len())?;
        Ok(())
    }
}

/// Puts the place z behind the others where w is above 0.
fn push_above(places: &mut Vec<usize>, w: i128, z: usize) -> Result<(), AllocError>
    ensures above { OnOk result (pos 0 <ℤ w → places.new.items ≡ places.old.items ++ z ∷ []) }
    ensures other { OnOk result (w ≤ℤ pos 0 → places.new.items ≡ places.old.items) }
{
    if w > 0 {
        places.push(z)?;
    }
    Ok(())
}
