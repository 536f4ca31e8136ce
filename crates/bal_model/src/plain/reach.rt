//! What can be reached, and what is kept of a set of objects. Both are the ends of walks inside a set, and these are searched
//! with Cheney's list: what was found waits in it until what it refers to has been looked at.
ghost use Rattle.std.specs.Prelude.{◌≡◌, ◌&&◌, ◌↔◌, All, IfOk, IsSome, IsTrue, List, [], ◌++◌, OnOk, filter, flat_map, map, not, slice_get};
ghost use Rattle.std.specs.List.{range_with_len};
ghost use Rattle.bal_layout.specs.Names.{is_among};
ghost use Rattle.bal_layout.specs.declared.name.Name.{Name};
ghost use Rattle.bal_model.specs.Ascending.{IsAscending};
ghost use Rattle.bal_model.specs.Kept.{kept_ground, kept_names};
ghost use Rattle.bal_model.specs.Marks.{is_marked};
ghost use Rattle.bal_model.specs.Plain.{object};
ghost use Rattle.bal_model.specs.Searching.{IsSearch, with_all_found, with_found};
ghost use Rattle.bal_model.specs.Walk.{EndsWalk, all_names, graph_ground, names_in, reachable, root_names, targets};

use super::Plain;
use super::marks::Marks;
use bal_base::{Items, NoMemory};
use bal_layout::Name;
use std::alloc::Global;

/// What walks inside a set have come to: the names inside, those of them that were not found yet, and the others in the
/// order in which they were found.
#[derive(Drop)]
pub struct Search {
    inside: Marks,
    unfound: Marks,
    found: Vec<Name>,
}

impl Search {
    // Nothing is found yet.
    fn make(state: &Plain, chosen: &[Name]) -> Result<Search, NoMemory>
        requires { All (λ x. IsSome (object state.now x)) chosen.now }
        ensures search { IfOk result IsSearch }
        ensures inside { IfOk result (λ r. (x : Name) → is_marked r.inside x ≡ is_among x chosen.now) }
        ensures found { IfOk result (λ r. r.found.items ≡ []) }
    {
        Ok(Search {
            inside: Marks::of(state, chosen)?,
            unfound: Marks::of(state, chosen)?,
            found: Vec::new(state.alloc),
        })
    }

    // A walk has come to a name.
    fn find(&mut self, name: Name) -> Result<(), NoMemory>
        requires { IsSearch self.old }
        ensures search { OnOk result (IsSearch self.new) }
        ensures inside { self.new.inside ≡ self.old.inside }
        ensures found { OnOk result (self.new.found.items ≡ with_found (is_marked self.old.inside) self.old.found.items name) }
    {
        if self.unfound.contains(name) {
            self.unfound.remove(name);
            self.found.push(name)?;
        }
        Ok(())
    }

    // Walks have come to these names.
    fn find_all(&mut self, names: &[Option<Name>]) -> Result<(), NoMemory>
        requires { IsSearch self.old }
        ensures search { OnOk result (IsSearch self.new) }
        ensures inside { self.new.inside ≡ self.old.inside }
        ensures found { OnOk result (self.new.found.items
            ≡ with_all_found (is_marked self.old.inside) self.old.found.items (names_in names.now)) }
    {
        for index in 0..names.len() {
            if let Some(name) = names[index] {
                self.find(name)?;
            }
        }
        Ok(())
    }

    // Walks go on along the references of a name.
    fn find_targets(&mut self, state: &Plain, name: Name) -> Result<(), NoMemory>
        requires { IsSearch self.old }
        ensures search { OnOk result (IsSearch self.new) }
        ensures inside { self.new.inside ≡ self.old.inside }
        ensures found { OnOk result (self.new.found.items
            ≡ with_all_found (is_marked self.old.inside) self.old.found.items (targets state.now name)) }
    {
        match state.node(name) {
            Some(node) => self.find_all(node.refs.as_slice()),
            None => Ok(()),
        }
    }

    // Walks begin at what the registers hold, thread by thread.
    fn find_registers(&mut self, state: &Plain) -> Result<(), NoMemory>
        requires { IsSearch self.old }
        ensures search { OnOk result (IsSearch self.new) }
        ensures inside { self.new.inside ≡ self.old.inside }
        ensures found { OnOk result (self.new.found.items ≡ with_all_found (is_marked self.old.inside) self.old.found.items
            (flat_map (λ m. names_in m.registers) state.now.mutators)) }
    {
        for thread in 0..state.mutators.len() {
            self.find_all(state.mutators[thread].registers.as_slice())?;
        }
        Ok(())
    }

    // Walks begin at what registers and globals hold.
    fn find_roots(&mut self, state: &Plain) -> Result<(), NoMemory>
        requires { IsSearch self.old }
        ensures search { OnOk result (IsSearch self.new) }
        ensures inside { self.new.inside ≡ self.old.inside }
        ensures found { OnOk result (self.new.found.items
            ≡ with_all_found (is_marked self.old.inside) self.old.found.items (root_names state.now)) }
    {
        self.find_registers(state)?;
        self.find_all(state.globals.as_slice())
    }

    // Walks begin at what those of these names refer to that are not inside.
    fn find_from_outside(&mut self, state: &Plain, present: &[Name]) -> Result<(), NoMemory>
        requires { IsSearch self.old }
        ensures search { OnOk result (IsSearch self.new) }
        ensures inside { self.new.inside ≡ self.old.inside }
        ensures found { OnOk result (self.new.found.items ≡ with_all_found (is_marked self.old.inside) self.old.found.items
            (flat_map (targets state.now) (filter (λ x. not (is_marked self.old.inside x)) present.now))) }
    {
        for index in 0..present.len() {
            if !self.inside.contains(present[index]) {
                self.find_targets(state, present[index])?;
            }
        }
        Ok(())
    }

    // The name that was found so many names after the first.
    fn found_at(&self, index: usize) -> Option<Name>
        ensures { result ≡ slice_get self.now.found.items index }
    {
        self.found.get(index).copied()
    }

    // Those of some names that are not unfound, in the order of the names.
    fn found_among(&self, alloc: Global, names: &[Name]) -> Result<Items<Name>, NoMemory>
        ensures { IfOk result (λ found. found.list ≡ filter (λ x. not (is_marked self.now.unfound x)) names.now) }
    {
        let mut found = Items::make(alloc)?;
        for index in 0..names.len() {
            if !self.unfound.contains(names[index]) {
                found.append(&names[index..index + 1])?;
            }
        }
        Ok(found)
    }
}

/// The names that are kept of the chosen ones, in the order of these: those at the ends of walks that lie in the chosen and
/// begin at what a register or a global holds, or one of the present objects that are not chosen.
pub fn kept_plain(state: &Plain, present: &[Name], chosen: &[Name]) -> Result<Items<Name>, NoMemory>
    requires { All (λ x. IsSome (object state.now x)) chosen.now }
    ensures names { IfOk result (λ kept. kept.list ≡ kept_names state.now present.now chosen.now) }
    ensures walks { IfOk result (λ kept. (x : Name) → IsTrue (is_among x kept.list)
        ↔ EndsWalk (kept_ground state.now present.now chosen.now) x) }
    ensures ordered { IfOk result (λ kept. IsAscending chosen.now → IsAscending kept.list) }
{
    let mut search = Search::make(state, chosen)?;
    search.find_roots(state)?;
    search.find_from_outside(state, present)?;
    let mut looked_at = 0;
    while let Some(name) = search.found_at(looked_at) {
        search.find_targets(state, name)?;
        looked_at += 1;
    }
    search.found_among(state.alloc, chosen)
}

// The names of the objects that a thread made, after those of others.
fn push_names(names: &mut Items<Name>, thread: u32, made: u32) -> Result<(), NoMemory>
    ensures { OnOk result (names.new.list
        ≡ names.old.list ++ map (λ o. record { thread = thread; ordinal = o }) (range_with_len 1 made)) }
{
    for before in 0..made {
        let name = Name {
            thread,
            ordinal: before + 1,
        };
        names.append(&[name])?;
    }
    Ok(())
}

// The names of all objects, ascending.
fn names_of(state: &Plain) -> Result<Items<Name>, NoMemory>
    ensures { IfOk result (λ names. names.list ≡ all_names state.now) }
{
    let mut names = Items::make(state.alloc)?;
    for thread in 0..state.mutators.len() {
        let made = state.mutators[thread].made.len() as u32;
        push_names(&mut names, thread as u32, made)?;
    }
    Ok(names)
}

/// The names that can be reached from the registers and globals, ascending: those at the ends of walks.
pub fn reach_plain(state: &Plain) -> Result<Items<Name>, NoMemory>
    ensures names { IfOk result (λ reached. reached.list ≡ reachable state.now) }
    ensures walks { IfOk result (λ reached. (x : Name) → IsTrue (is_among x reached.list)
        ↔ EndsWalk (graph_ground state.now) x) }
    ensures ordered { IfOk result (λ reached. IsAscending reached.list) }
{
    let names = names_of(state)?;
    // Nothing is outside of all names.
    kept_plain(state, &[], names.as_slice())
}
