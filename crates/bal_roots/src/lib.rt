//! The roots of the heap: what registers and globals hold, as words. A word is 0 for null, and else the address of an
//! object plus 1. A collection begins its walks here, and writes the new addresses back.
//!
//! Roots are also numbered from 0, the registers by thread and number and then the globals: in that order a collection
//! goes over them.
#![tactic(auto)]

ghost use Rattle.std.specs.Prelude.{◌≡◌, ◌<◌, IfOk, length, slice_index_or, slice_set};
ghost use Rattle.bal_roots.specs.Roots.{null_roots, register_place, global_place, root_count};

#[cfg(test)]
mod tests;

use bal_base::{Items, NoMemory, filled};
use bal_layout::{GLOBALS, REGISTERS, THREADS};
use std::alloc::Global;
use std::marker::Model;

/// The words of 32 registers for each of 32 threads, and of 64 globals. Contracts see them as one list.
#[derive(Drop)]
pub struct Roots {
    words: Items<u64>,
}

impl Model for Roots {
    ghost use Rattle.std.specs.Prelude.{◌≡◌, ℕ, List, length};
    ghost use Rattle.bal_roots.specs.Roots.{root_count};

    ghost Value = { List ℕ };

    ghost view = { λ roots. roots.words.list };

    ghost invariant = { λ roots. length roots.words.list ≡ root_count };
}

impl Roots {
    /// All registers and globals are null.
    pub fn make(alloc: Global) -> Result<Roots, NoMemory>
        ensures { IfOk result (λ roots. roots ≡ null_roots) }
    {
        let count = THREADS * REGISTERS + GLOBALS;
        let words = filled(alloc, 0, count as usize)?;
        Ok(Roots { words })
    }

    /// The word of a thread's register.
    pub fn register(&self, thread: u32, number: u32) -> u64
        requires thread { thread < 32 }
        requires number { number < 32 }
        ensures { result ≡ slice_index_or self.now (register_place thread number) 0 }
    {
        self.root(REGISTERS * thread + number)
    }

    /// A thread's register takes a word.
    pub fn set_register(&mut self, thread: u32, number: u32, word: u64)
        requires thread { thread < 32 }
        requires number { number < 32 }
        ensures { self.new ≡ slice_set self.old (register_place thread number) word }
    {
        self.set_root(REGISTERS * thread + number, word);
    }

    /// The word of a global.
    pub fn global(&self, number: u32) -> u64
        requires { number < 64 }
        ensures { result ≡ slice_index_or self.now (global_place number) 0 }
    {
        self.root(THREADS * REGISTERS + number)
    }

    /// A global takes a word.
    pub fn set_global(&mut self, number: u32, word: u64)
        requires { number < 64 }
        ensures { self.new ≡ slice_set self.old (global_place number) word }
    {
        self.set_root(THREADS * REGISTERS + number, word);
    }

    /// How many roots there are.
    pub fn root_count(&self) -> u32
        ensures number { result ≡ root_count }
        ensures all { length self.now ≡ root_count }
    {
        let _ = &self.words;
        THREADS * REGISTERS + GLOBALS
    }

    /// The word of a root by its number.
    pub fn root(&self, index: u32) -> u64
        requires { index < root_count }
        ensures { result ≡ slice_index_or self.now index 0 }
    {
        self.words.as_slice()[index as usize]
    }

    /// A root takes a word.
    pub fn set_root(&mut self, index: u32, word: u64)
        requires { index < root_count }
        ensures { self.new ≡ slice_set self.old index word }
    {
        self.words.set(index as usize, word);
    }
}
