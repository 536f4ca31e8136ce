//! How a row changes the plain graph: first one mutator, then the graph that it stands in.
ghost use Rattle.std.specs.Prelude.{◌≡◌, ◌-◌, ◌<◌, ◌^◌, ◌↔◌, IsTrue, if◌then◌else◌, IfOk, OnOk, OnErr, length, map, slice_get, vec_len};
ghost use Rattle.std.specs.Bool.{OnTrue, OnFalse};
ghost use Rattle.bal_model.specs.declared.row.Reply.TheVariants.{Ok, Slot};
ghost use Rattle.bal_model.specs.Plain.{made_by, refs, refs_of, values, values_of, object_at, changed_at, referring, counting, next_name, next_of, name_or_null, holding, adopting, allocating, step, with_register, with_reference, with_value, with_global};
ghost use Rattle.bal_model.specs.Graph.{object_of, mutator_of};

use super::make::{new_array_node, new_node};
use crate::{Mutator, Node, Op, Plain, Reply};
use bal_base::NoMemory;
use bal_layout::Name;

// A register takes a name or null.
fn hold(mutator: &mut Mutator, register: u32, content: Option<Name>)
    requires { register < length mutator.old.registers.list }
    ensures held { mutator_of mutator.new ≡ holding register content (mutator_of mutator.old) }
    ensures registers { length mutator.new.registers.list ≡ length mutator.old.registers.list }
    ensures made { mutator.new.made.items ≡ mutator.old.made.items }
{
    mutator.registers.set(register as usize, content);
}

// One more object, held by a register. At an error the mutator's list of objects may have more room.
fn adopt(mutator: &mut Mutator, thread: u32, register: u32, node: Node) -> Result<Name, NoMemory>
    requires register { register < length mutator.old.registers.list }
    requires ordinals { vec_len mutator.old.made < 2 ^ 32 - 1 }
    ensures name { IfOk result (λ name. name ≡ next_of thread (mutator_of mutator.old)) }
    ensures graph { OnOk result (mutator_of mutator.new
        ≡ adopting thread register (object_of node) (mutator_of mutator.old)) }
    ensures err { OnErr result (mutator_of mutator.new ≡ mutator_of mutator.old) }
    ensures registers { length mutator.new.registers.list ≡ length mutator.old.registers.list }
    ensures made { vec_len mutator.new.made < 2 ^ 32 }
{
    mutator.made.push(node)?;
    let name = Name {
        thread,
        ordinal: mutator.made.len() as u32,
    };
    mutator.registers.set(register as usize, Some(name));
    Ok(name)
}

// Writes a reference of the object with that ordinal, and answers whether it has the slot.
fn write_reference(made: &mut Vec<Node>, ordinal: u32, slot: u32, content: Option<Name>) -> bool
    ensures has { IsTrue result ↔ (slot < length (refs_of (object_at (map object_of made.old.items) ordinal))) }
    ensures graph { OnTrue result (map object_of made.new.items
        ≡ changed_at (map object_of made.old.items) (ordinal - 1) (referring slot content)) }
    ensures same { OnFalse result (map object_of made.new.items ≡ map object_of made.old.items) }
    ensures len { vec_len made.new ≡ vec_len made.old }
{
    if ordinal == 0 || made.len() < ordinal as usize {
        return false;
    }
    let node = &mut made[ordinal as usize - 1];
    if slot as usize >= node.refs.len() {
        return false;
    }
    node.refs.set(slot as usize, content);
    true
}

// Writes a value of the object with that ordinal, and answers whether it has the slot.
fn write_value(made: &mut Vec<Node>, ordinal: u32, slot: u32, number: u64) -> bool
    ensures has { IsTrue result ↔ (slot < length (values_of (object_at (map object_of made.old.items) ordinal))) }
    ensures graph { OnTrue result (map object_of made.new.items
        ≡ changed_at (map object_of made.old.items) (ordinal - 1) (counting slot number)) }
    ensures same { OnFalse result (map object_of made.new.items ≡ map object_of made.old.items) }
    ensures len { vec_len made.new ≡ vec_len made.old }
{
    if ordinal == 0 || made.len() < ordinal as usize {
        return false;
    }
    let node = &mut made[ordinal as usize - 1];
    if slot as usize >= node.values.len() {
        return false;
    }
    node.values.set(slot as usize, number);
    true
}

// The reply of a row that writes a slot, by whether the object has it.
fn write_reply(written: bool) -> Reply
    ensures { result ≡ (if written then Ok else Slot) }
{
    if written { Reply::Ok } else { Reply::Slot }
}

impl Plain {
    // One more object of the thread's, which the register then holds.
    pub(crate) fn keep_node(
        &mut self,
        thread: u32,
        register: u32,
        node: Node,
    ) -> Result<Name, NoMemory>
        requires thread { thread < 32 }
        requires register { register < 32 }
        requires ordinals { made_by self.old thread < 2 ^ 32 - 1 }
        ensures name { IfOk result (λ name. name ≡ next_name self.old thread) }
        ensures graph { OnOk result (self.new ≡ (allocating self.old thread register (object_of node)).1) }
        ensures err { OnErr result (self.new ≡ self.old) }
    {
        let mutator = &mut self.mutators[thread as usize];
        adopt(mutator, thread, register, node)
    }

    // A new object with so many references and values.
    pub(crate) fn make_object(
        &mut self,
        thread: u32,
        register: u32,
        refs: u32,
        values: u32,
    ) -> Result<Name, NoMemory>
        requires thread { thread < 32 }
        requires register { register < 32 }
        requires ordinals { made_by self.old thread < 2 ^ 32 - 1 }
        ensures name { IfOk result (λ name. name ≡ next_name self.old thread) }
        ensures graph { OnOk result (self.new ≡ (step self.old thread (Op.New register refs values)).1) }
        ensures err { OnErr result (self.new ≡ self.old) }
    {
        let node = new_node(self.alloc, refs, values)?;
        self.keep_node(thread, register, node)
    }

    // A new array with so many references.
    pub(crate) fn make_array(
        &mut self,
        thread: u32,
        register: u32,
        len: u32,
    ) -> Result<Name, NoMemory>
        requires thread { thread < 32 }
        requires register { register < 32 }
        requires ordinals { made_by self.old thread < 2 ^ 32 - 1 }
        ensures name { IfOk result (λ name. name ≡ next_name self.old thread) }
        ensures graph { OnOk result (self.new ≡ (step self.old thread (Op.Arr register len)).1) }
        ensures err { OnErr result (self.new ≡ self.old) }
    {
        let node = new_array_node(self.alloc, len)?;
        self.keep_node(thread, register, node)
    }

    // The register of a thread takes a name or null.
    pub(crate) fn set_register(&mut self, thread: u32, register: u32, content: Option<Name>)
        requires thread { thread < 32 }
        requires register { register < 32 }
        ensures { self.new ≡ with_register self.old thread register content }
    {
        let mutator = &mut self.mutators[thread as usize];
        hold(mutator, register, content);
    }

    // A reference of the holder becomes what a register holds.
    pub(crate) fn store(&mut self, thread: u32, holder: u32, slot: u32, value: u32) -> Reply
        requires thread { thread < 32 }
        requires holder { holder < 32 }
        requires value { value < 32 }
        ensures reply { result ≡ (step self.old thread (Op.Store holder slot value)).0 }
        ensures graph { self.new ≡ (step self.old thread (Op.Store holder slot value)).1 }
    {
        let Some(name) = self.register(thread, holder) else {
            return Reply::Nil;
        };
        let content = self.register(thread, value);
        write_reply(self.set_reference(name, slot, content))
    }

    // A register takes a reference of the holder.
    pub(crate) fn load(&mut self, thread: u32, into: u32, holder: u32, slot: u32) -> Reply
        requires thread { thread < 32 }
        requires into { into < 32 }
        requires holder { holder < 32 }
        ensures reply { result ≡ (step self.old thread (Op.Load into holder slot)).0 }
        ensures graph { self.new ≡ (step self.old thread (Op.Load into holder slot)).1 }
    {
        let Some(name) = self.register(thread, holder) else {
            return Reply::Nil;
        };
        let Some(content) = self.reference(name, slot) else {
            return Reply::Slot;
        };
        self.take(thread, into, content)
    }

    // A value of the holder becomes the number.
    pub(crate) fn put(&mut self, thread: u32, holder: u32, slot: u32, number: u64) -> Reply
        requires thread { thread < 32 }
        requires holder { holder < 32 }
        ensures reply { result ≡ (step self.old thread (Op.Put holder slot number)).0 }
        ensures graph { self.new ≡ (step self.old thread (Op.Put holder slot number)).1 }
    {
        let Some(name) = self.register(thread, holder) else {
            return Reply::Nil;
        };
        write_reply(self.set_value(name, slot, number))
    }

    // A value of the holder is read.
    pub(crate) fn get(&self, thread: u32, holder: u32, slot: u32) -> Reply
        requires thread { thread < 32 }
        requires holder { holder < 32 }
        ensures reply { result ≡ (step self.now thread (Op.Get holder slot)).0 }
        ensures graph { self.now ≡ (step self.now thread (Op.Get holder slot)).1 }
    {
        let Some(name) = self.register(thread, holder) else {
            return Reply::Nil;
        };
        let Some(number) = self.value(name, slot) else {
            return Reply::Slot;
        };
        Reply::Number(number)
    }

    // A global takes what a register holds.
    pub(crate) fn set_global(&mut self, thread: u32, global: u32, register: u32)
        requires thread { thread < 32 }
        requires global { global < 64 }
        requires register { register < 32 }
        ensures { self.new ≡ (step self.old thread (Op.GStore global register)).1 }
    {
        let content = self.register(thread, register);
        self.globals.set(global as usize, content);
    }

    // A register takes what a global holds.
    pub(crate) fn take_global(&mut self, thread: u32, into: u32, global: u32) -> Reply
        requires thread { thread < 32 }
        requires into { into < 32 }
        requires global { global < 64 }
        ensures reply { result ≡ (step self.old thread (Op.GLoad into global)).0 }
        ensures graph { self.new ≡ (step self.old thread (Op.GLoad into global)).1 }
    {
        let content = self.global(global);
        self.take(thread, into, content)
    }

    // A register takes a name or null, which is the reply.
    fn take(&mut self, thread: u32, into: u32, content: Option<Name>) -> Reply
        requires thread { thread < 32 }
        requires into { into < 32 }
        ensures reply { result ≡ name_or_null content }
        ensures graph { self.new ≡ with_register self.old thread into content }
    {
        self.set_register(thread, into, content);
        match content {
            Some(name) => Reply::Name(name),
            None => Reply::Null,
        }
    }

    // The reference in that slot, or None if the name has no such slot.
    fn reference(&self, name: Name, slot: u32) -> Option<Option<Name>>
        ensures { result ≡ slice_get (refs self.now name) slot }
    {
        let Some(node) = self.node(name) else {
            return None;
        };
        node.refs.get(slot as usize).copied()
    }

    // Writes the reference in that slot, and answers whether the name has it.
    fn set_reference(&mut self, name: Name, slot: u32, content: Option<Name>) -> bool
        ensures has { IsTrue result ↔ (slot < length (refs self.old name)) }
        ensures graph { OnTrue result (self.new ≡ with_reference self.old name slot content) }
        ensures same { OnFalse result (self.new ≡ self.old) }
    {
        let thread = name.thread as usize;
        if thread >= self.mutators.len() {
            return false;
        }
        let mutator = &mut self.mutators[thread];
        write_reference(&mut mutator.made, name.ordinal, slot, content)
    }

    // The value in that slot, or None if the name has no such slot.
    fn value(&self, name: Name, slot: u32) -> Option<u64>
        ensures { result ≡ slice_get (values self.now name) slot }
    {
        let Some(node) = self.node(name) else {
            return None;
        };
        node.values.get(slot as usize).copied()
    }

    // Writes the value in that slot, and answers whether the name has it.
    fn set_value(&mut self, name: Name, slot: u32, number: u64) -> bool
        ensures has { IsTrue result ↔ (slot < length (values self.old name)) }
        ensures graph { OnTrue result (self.new ≡ with_value self.old name slot number) }
        ensures same { OnFalse result (self.new ≡ self.old) }
    {
        let thread = name.thread as usize;
        if thread >= self.mutators.len() {
            return false;
        }
        let mutator = &mut self.mutators[thread];
        write_value(&mut mutator.made, name.ordinal, slot, number)
    }
}
