//! Marks on the objects of a plain graph: a bit for each, by the thread that made it and its ordinal.
ghost use Rattle.std.specs.Prelude.{◌≡◌, ◌&&◌, ◌||◌, All, IfOk, IsSome, IsTrue, false, not};
ghost use Rattle.bal_layout.specs.Names.{same_name, is_among};
ghost use Rattle.bal_layout.specs.declared.name.Name.{Name};
ghost use Rattle.bal_model.specs.Marks.{HasRoom, is_marked};
ghost use Rattle.bal_model.specs.Plain.{object};

use super::Plain;
use bal_base::{Bits, NoMemory};
use bal_layout::Name;
use std::alloc::Global;

/// The marked objects, thread by thread. The one with ordinal o has the bit o - 1.
#[derive(Drop)]
pub struct Marks {
    threads: Vec<Bits>,
}

impl Marks {
    // No object is marked, and each may be.
    fn make(state: &Plain) -> Result<Marks, NoMemory>
        ensures none { IfOk result (λ marks. (x : Name) → is_marked marks x ≡ false) }
        ensures room { IfOk result (λ marks. (x : Name) → IsSome (object state.now x) → HasRoom marks x) }
    {
        let mut threads = Vec::with_capacity(state.alloc, state.mutators.len())?;
        for thread in 0..state.mutators.len() {
            threads.push(Bits::make(state.alloc, state.mutators[thread].made.len() as u32)?)?;
        }
        Ok(Marks { threads })
    }

    /// These objects are marked, and no others.
    pub(crate) fn of(state: &Plain, names: &[Name]) -> Result<Marks, NoMemory>
        requires { All (λ x. IsSome (object state.now x)) names.now }
        ensures { IfOk result (λ marks. (x : Name) → is_marked marks x ≡ is_among x names.now) }
    {
        let mut marks = Marks::make(state)?;
        for index in 0..names.len() {
            marks.insert(names[index]);
        }
        Ok(marks)
    }

    /// Whether an object is marked.
    pub(crate) fn contains(&self, name: Name) -> bool
        ensures { result ≡ is_marked self.now name }
    {
        let thread = name.thread as usize;
        thread < self.threads.len()
            && name.ordinal > 0
            && self.threads[thread].contains(name.ordinal - 1)
    }

    // One object more is marked.
    fn insert(&mut self, name: Name)
        requires { HasRoom self.old name }
        ensures marked { (x : Name) → is_marked self.new x ≡ (is_marked self.old x || same_name x name) }
        ensures room { (x : Name) → HasRoom self.old x → HasRoom self.new x }
    {
        self.threads[name.thread as usize].insert(name.ordinal - 1);
    }

    /// An object is not marked any more, which was.
    pub(crate) fn remove(&mut self, name: Name)
        requires { IsTrue (is_marked self.old name) }
        ensures { (x : Name) → is_marked self.new x ≡ (is_marked self.old x && not (same_name x name)) }
    {
        self.threads[name.thread as usize].remove(name.ordinal - 1);
    }
}
