//! Pages that are read and written, in memory or behind the pool.
ghost use Rattle.std.specs.Prelude.{◌≡◌, ◌≢◌, ◌+◌, ◌≤◌, ◌⊎◌, ℕ, true, List, length, take, drop, Contains, IsSome, IsOk, None, OnOk, OnErr, Err};
ghost use Rattle.eu_base.specs.declared.cells.MemFault.TheVariants as fault;
ghost use Rattle.eu_base.specs.Cells.{HasFaultCause};
ghost use Rattle.page_pool.specs.Pool.{used_of, count_of, bytes_of, home_of, shown_of, of_block, pasted, Known, Backed, Writes, HasBytes, PastesBytes, Brings, IsPool};

use crate::page::PAGE_BYTES;
use crate::pool::Pool;
use eu_base::{Backing, MemFault};
use std::boxed::Box;

impl Pool {
    // Whether bytes of a block are kept, and these.
    fn find(&mut self, block: u32, into: &mut [u8; 512]) -> bool
        ensures found { result ≡ true → Contains self.old.clean (block, into.new) }
        ensures slots { self.new.slots ≡ self.old.slots }
        ensures clean { (entry : ℕ × List ℕ) → Contains self.new.clean entry → Contains self.old.clean entry }
    {
        if !self.clean.promote(&block) {
            return false;
        }
        let Some(bytes) = self.clean.peek(&block) else {
            return false;
        };
        into.copy_from_slice(bytes);
        true
    }

    // The bytes of a block are kept, where memory is there.
    fn keep(&mut self, block: u32, bytes: [u8; 512])
        ensures slots { self.new.slots ≡ self.old.slots }
        ensures clean { (entry : ℕ × List ℕ) → Contains self.new.clean entry → Contains self.old.clean entry ⊎ ((entry.0 ≡ block) × (entry.1 ≡ bytes)) }
    {
        match self.clean.put(block, bytes) {
            Ok(_old) => {}
            Err(_refused) => {}
        }
    }

    // The bytes of a block: those that are kept of it, or those that stand behind the pool. They are kept where memory is there.
    fn block<B: Backing>(
        &mut self,
        block: u32,
        into: &mut [u8; 512],
        backing: &mut B,
    ) -> Result<(), MemFault>
        requires held { B.holds backing.old block ≡ true }
        ensures bytes { OnOk result (IsSome (B.tells backing.old) →
            ((kept : List ℕ) → Contains self.old.clean (block, kept) → kept ≡ of_block (B.tells backing.old) block) →
            into.new ≡ of_block (B.tells backing.old) block) }
        ensures slots { self.new.slots ≡ self.old.slots }
        ensures clean { (entry : ℕ × List ℕ) → Contains self.new.clean entry → Contains self.old.clean entry
            ⊎ ((entry.0 ≡ block) × (IsSome (B.tells backing.old) → entry.1 ≡ of_block (B.tells backing.old) block)) }
        ensures memory { result ≢ Err fault.NoMemory }
        ensures cause { HasFaultCause (B.faults backing.old) (B.faults backing.new) result }
        ensures follows { B.follows backing.old backing.new }
    {
        if self.find(block, into) {
            return Ok(());
        }
        backing.load(block, into)?;
        self.keep(block, *into);
        Ok(())
    }

    /// Fills `into` with the bytes of a page from a place on.
    pub fn read<B: Backing>(
        &mut self,
        p: u32,
        at: u16,
        into: &mut [u8],
        backing: &mut B,
    ) -> Result<(), MemFault>
        requires live { 1 ≤ count_of self.old p }
        requires within { at + length into.old ≤ PAGE_BYTES }
        requires backed { Backed (B.holds backing.old) self.old }
        ensures bytes { OnOk result (Known (B.tells backing.old) self.old →
            into.new ≡ take (length into.old) (drop at (bytes_of (B.tells backing.old) self.old p))) }
        ensures long { OnOk result (Known (B.tells backing.old) self.old → length (bytes_of (B.tells backing.old) self.old p) ≡ PAGE_BYTES) }
        ensures sure { ((shown_of self.old p).pinned ≡ true) ⊎ (home_of self.old p ≡ None) → IsOk result }
        ensures slots { self.new.slots ≡ self.old.slots }
        ensures known { Known (B.tells backing.old) self.old → Known (B.tells backing.new) self.new }
        ensures backed { Backed (B.holds backing.new) self.new }
        ensures memory { result ≢ Err fault.NoMemory }
        ensures cause { HasFaultCause (B.faults backing.old) (B.faults backing.new) result }
        ensures follows { B.follows backing.old backing.new }
    {
        let page = &self.pages[p as usize];
        let Some(block) = page.away() else {
            page.read(at as usize, into);
            return Ok(());
        };
        let mut bytes = [0; 512];
        self.block(block, &mut bytes, backing)?;
        let at = at as usize;
        into.copy_from_slice(&bytes[at..at + into.len()]);
        Ok(())
    }

    // A page has its bytes in memory; it is changed where it had them not.
    fn bring<B: Backing>(&mut self, p: u32, backing: &mut B) -> Result<(), MemFault>
        requires live { 1 ≤ count_of self.old p }
        requires backed { Backed (B.holds backing.old) self.old }
        ensures brings { OnOk result (Brings self.old self.new p) }
        ensures bytes { OnOk result (HasBytes (B.tells backing.old) self.old self.new p) }
        ensures sure { ((shown_of self.old p).pinned ≡ true) ⊎ (home_of self.old p ≡ None) → IsOk result }
        ensures slots { OnErr result (self.new.slots ≡ self.old.slots) }
        ensures known { Known (B.tells backing.old) self.old → Known (B.tells backing.new) self.new }
        ensures backed { Backed (B.holds backing.new) self.new }
        ensures used { used_of self.new ≡ used_of self.old }
        ensures sound { IsPool self.new }
        ensures cause { HasFaultCause (B.faults backing.old) (B.faults backing.new) result }
        ensures follows { B.follows backing.old backing.new }
    {
        let page = &self.pages[p as usize];
        let Some(block) = page.away() else {
            return Ok(())
        };
        let mut bytes = [0; 512];
        self.block(block, &mut bytes, backing)?;
        let Ok(bytes) = Box::new(self.alloc, bytes) else {
            return Err(MemFault::NoMemory);
        };
        let page = &mut self.pages[p as usize];
        page.bring(bytes);
        Ok(())
    }

    /// Writes to a page that has one name. A refusal changes nothing.
    pub fn write_own<B: Backing>(
        &mut self,
        p: u32,
        at: u16,
        from: &[u8],
        backing: &mut B,
    ) -> Result<(), MemFault>
        requires own { count_of self.old p ≡ 1 }
        requires within { at + length from.now ≤ PAGE_BYTES }
        requires backed { Backed (B.holds backing.old) self.old }
        ensures writes { OnOk result (Writes self.old self.new p (shown_of self.new p)) }
        ensures bytes { OnOk result (PastesBytes (B.tells backing.old) self.old self.new p at from.now) }
        ensures sure { ((shown_of self.old p).pinned ≡ true) ⊎ (home_of self.old p ≡ None) → IsOk result }
        ensures slots { OnErr result (self.new.slots ≡ self.old.slots) }
        ensures known { Known (B.tells backing.old) self.old → Known (B.tells backing.new) self.new }
        ensures backed { Backed (B.holds backing.new) self.new }
        ensures used { used_of self.new ≡ used_of self.old }
        ensures sound { IsPool self.new }
        ensures cause { HasFaultCause (B.faults backing.old) (B.faults backing.new) result }
        ensures follows { B.follows backing.old backing.new }
    {
        self.bring(p, backing)?;
        let page = &mut self.pages[p as usize];
        page.write(at as usize, from);
        Ok(())
    }
}
