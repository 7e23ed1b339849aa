//! A column of numbers.
ghost use Rattle.read_traces.specs.NumberSlots.{IsSlot, number_in};
ghost use Rattle.std.specs.Prelude.{◌≡◌, ◌⊎◌, ◌<◌, ◌<ℤ◌, ◌≤◌, ◌+◌, ◌-◌, ◌^◌, ◌++◌, ◌∷◌, [], IfNone, IfSome, List, OnErr, OnOk, ℤ, length, negsuc, pos, slice_index_or, take};

use std::alloc::{AllocError, Global};
use std::marker::Model;

/// The least number that has room in a slot.
const NARROW_MIN: i64 = -1_073_741_824;

/// How many negative numbers have room in a slot.
const NARROW_COUNT: usize = 1_073_741_824;

/// A column of numbers of 64 bits. A number from -2^30 to 2^31 - 1 takes half the memory, and any other half as much
/// again. A clause sees the list of the numbers.
#[derive(Drop)]
pub struct Numbers {
    slots: Vec<i32>,
    wide: Vec<i64>,
}

impl Model for Numbers {
    ghost use Rattle.read_traces.specs.NumberSlots.{IsSlot, numbers_in};
    ghost use Rattle.std.specs.Prelude.{All, List, ℤ, length};

    ghost Value = { List ℤ };

    ghost view = { λ n. numbers_in n.wide.items n.slots.items };

    ghost invariant = { λ n. All (IsSlot (length n.wide.items)) n.slots.items };
}

/// The slot that is this number, if it has room.
#[inline(always)]
fn narrow_slot(number: i64) -> Option<i32>
    ensures slot { IfSome result (λ slot. (slot ≡ number) × ((wide : List ℤ) → number_in wide slot ≡ number)
        × IsSlot 0 slot) }
    ensures none { IfNone result ((number <ℤ negsuc (2 ^ 30 - 1)) ⊎ (pos (2 ^ 31 - 1) <ℤ number)) }
{
    if number < NARROW_MIN || number > i32::MAX as i64 {
        return None;
    }
    Some(number as i32)
}

/// The slot that stands for the number at this index among those that are too wide, if there is room.
fn wide_slot(index: usize) -> Option<i32>
    ensures slot { IfSome result (λ slot. slot ≡ negsuc (2 ^ 30 + index)) }
    ensures none { IfNone result (2 ^ 30 ≤ index) }
{
    if index >= NARROW_COUNT {
        return None;
    }
    Some(!((NARROW_COUNT + index) as i32))
}

/// The number that a slot stands for.
fn number_in(slot: i32, wide: &[i64]) -> i64
    requires { IsSlot (length wide.now) slot }
    ensures { result ≡ number_in wide.now slot }
{
    if slot as i64 >= NARROW_MIN {
        return slot as i64;
    }
    wide[(!slot) as usize - NARROW_COUNT]
}

impl Numbers {
    /// No number. It takes no memory.
    pub fn new(alloc: Global) -> Numbers
        ensures { result ≡ [] }
    {
        Numbers {
            slots: Vec::new(alloc),
            wide: Vec::new(alloc),
        }
    }

    /// How many numbers there are.
    pub fn len(&self) -> usize
        ensures { result ≡ length self.now }
    {
        self.slots.len()
    }

    /// Adds a number that has no room in a slot.
    #[inline(never)]
    fn push_wide(&mut self, number: i64) -> Result<(), AllocError>
        ensures ok { OnOk result (self.new ≡ self.old ++ number ∷ []) }
        ensures err { OnErr result (self.new ≡ self.old) }
    {
        let Some(slot) = wide_slot(self.wide.len()) else {
            return Err(AllocError);
        };
        self.wide.push(number)?;
        self.slots.push(slot)?;
        Ok(())
    }

    /// Adds a number.
    ///
    /// # Errors
    /// If memory runs out, or 2^30 numbers are too wide for a slot. The numbers are then as they were.
    #[inline(always)]
    pub fn push(&mut self, number: i64) -> Result<(), AllocError>
        ensures ok { OnOk result (self.new ≡ self.old ++ number ∷ []) }
        ensures err { OnErr result (self.new ≡ self.old) }
    {
        match narrow_slot(number) {
            Some(slot) => {
                self.slots.push(slot)?;
                Ok(())
            }
            None => self.push_wide(number),
        }
    }

    /// Adds these numbers.
    ///
    /// # Errors
    /// As `push`. Then the numbers that were there are the first ones.
    pub fn extend(&mut self, numbers: &[i64]) -> Result<(), AllocError>
        ensures ok { OnOk result (self.new ≡ self.old ++ numbers.now) }
        ensures err { OnErr result (take (length self.old) self.new ≡ self.old) }
    {
        for number in numbers {
            self.push(*number)?;
        }
        Ok(())
    }

    /// Makes room for the slots of this many more numbers, and no more.
    ///
    /// # Errors
    /// If memory runs out.
    pub fn reserve(&mut self, more: usize) -> Result<(), AllocError>
        ensures { self.new ≡ self.old }
    {
        self.slots.reserve_exact(more)
    }

    /// Keeps the first `n` numbers, or all if there are no more.
    pub fn truncate(&mut self, n: usize)
        ensures { self.new ≡ take n self.old }
    {
        self.slots.truncate(n);
    }

    /// The number at this index.
    pub fn get(&self, i: usize) -> i64
        requires { i < length self.now }
        ensures { result ≡ slice_index_or self.now i (pos 0) }
    {
        number_in(self.slots[i], &self.wide)
    }
}
