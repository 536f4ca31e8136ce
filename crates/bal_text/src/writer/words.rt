//! What is put in a line, each part in front of what stands there already: so each function begins with its last word. A
//! part brings the space in front of each of its words, and says how many bytes it takes at most. Most lines of a journal
//! are rows: the parts of a row are inlined, so that a word is one store.
ghost use Rattle.std.specs.Prelude.{◌≡◌, ◌+◌, ◌≤◌, ◌++◌, ◌∷◌, [], List, ℕ, codes, length, map};
ghost use Rattle.std.specs.Fmt.{decimal};
ghost use Rattle.bal_base.specs.Line.{most_bytes};
ghost use Rattle.bal_model.specs.Entries.{reply_of, spot_of};
ghost use Rattle.bal_model.specs.Spelling.{op_word, op_numbers};
ghost use Rattle.bal_model.specs.Text.{cause_words, how_word, kept_word, name_word, packed_word, reply_word, spaced};
ghost use Rattle.bal_text.specs.Writing.{region_words, row_front};

use bal_base::Line;
use bal_model::{Abort, Answer, How, Kept, Name, Op, Packed, Reply};

// A number after a space.
#[inline(always)]
fn put_number(line: &mut Line, number: u64)
    requires { 21 ≤ line.old.spare }
    ensures list { line.new.list ≡ 32 ∷ decimal number ++ line.old.list }
    ensures room { line.old.spare ≤ line.new.spare + 21 }
{
    line.put_number(number);
    line.put(b" ");
}

/// A word, and the number after it.
#[inline(always)]
pub fn put_one(line: &mut Line, word: &[u8], number: u32)
    requires { length word.now + 21 ≤ line.old.spare }
    ensures list { line.new.list ≡ word.now ++ spaced (map decimal (number ∷ [])) ++ line.old.list }
    ensures room { line.old.spare ≤ line.new.spare + (length word.now + 21) }
{
    put_number(line, u64::from(number));
    line.put(word);
}

// A word, and two numbers after it.
#[inline(always)]
fn put_two(line: &mut Line, word: &[u8], first: u32, second: u32)
    requires { length word.now + 42 ≤ line.old.spare }
    ensures list { line.new.list ≡ word.now ++ spaced (map decimal (first ∷ second ∷ [])) ++ line.old.list }
    ensures room { line.old.spare ≤ line.new.spare + (length word.now + 42) }
{
    put_number(line, u64::from(second));
    put_one(line, word, first);
}

// A word, and three numbers after it.
#[inline(always)]
fn put_three(line: &mut Line, word: &[u8], first: u32, second: u32, third: u32)
    requires { length word.now + 63 ≤ line.old.spare }
    ensures list { line.new.list ≡ word.now ++ spaced (map decimal (first ∷ second ∷ third ∷ [])) ++ line.old.list }
    ensures room { line.old.spare ≤ line.new.spare + (length word.now + 63) }
{
    put_number(line, u64::from(third));
    put_two(line, word, first, second);
}

// A name.
#[inline(always)]
fn put_name(line: &mut Line, name: &Name)
    requires { 42 ≤ line.old.spare }
    ensures list { line.new.list ≡ 32 ∷ name_word name.now ++ line.old.list }
    ensures room { line.old.spare ≤ line.new.spare + 42 }
{
    line.put_number(u64::from(name.ordinal));
    line.put(b".");
    put_number(line, u64::from(name.thread));
}

// What a row does.
#[inline(always)]
fn put_op(line: &mut Line, op: &Op)
    requires { 69 ≤ line.old.spare }
    ensures list { line.new.list ≡ spaced (op_word op.now ∷ map decimal (op_numbers op.now)) ++ line.old.list }
    ensures room { line.old.spare ≤ line.new.spare + 69 }
{
    match *op {
        Op::New {
            register,
            refs,
            values,
        } => put_three(line, b" new", register, refs, values),
        Op::Arr { register, len } => put_two(line, b" arr", register, len),
        Op::Store {
            holder,
            slot,
            value,
        } => put_three(line, b" store", holder, slot, value),
        Op::Load { into, holder, slot } => put_three(line, b" load", into, holder, slot),
        Op::Put {
            holder,
            slot,
            number,
        } => {
            put_number(line, number);
            put_two(line, b" put", holder, slot);
        }
        Op::Get { holder, slot } => put_two(line, b" get", holder, slot),
        Op::GStore { global, register } => put_two(line, b" gstore", global, register),
        Op::GLoad { into, global } => put_two(line, b" gload", into, global),
        Op::Drop { register } => put_one(line, b" drop", register),
        Op::Gc => line.put(b" gc"),
    }
}

// What a row replied.
#[inline(always)]
fn put_reply(line: &mut Line, reply: &Reply)
    requires { 42 ≤ line.old.spare }
    ensures list { line.new.list ≡ 32 ∷ reply_word reply.now ++ line.old.list }
    ensures room { line.old.spare ≤ line.new.spare + 42 }
{
    match reply {
        Reply::Name(name) => put_name(line, name),
        Reply::Null => line.put(b" null"),
        Reply::Number(number) => put_number(line, *number),
        Reply::Ok => line.put(b" ok"),
        Reply::Nil => line.put(b" nil"),
        Reply::Slot => line.put(b" slot"),
        Reply::Full => line.put(b" full"),
    }
}

// What a row answered: its reply, and the region where its object was placed, if it made one.
#[inline(always)]
fn put_answer(line: &mut Line, answer: &Answer)
    requires { 66 ≤ line.old.spare }
    ensures list { line.new.list ≡ 32 ∷ reply_word (reply_of answer.now)
        ++ spaced (region_words (spot_of answer.now)) ++ line.old.list }
    ensures room { line.old.spare ≤ line.new.spare + 66 }
{
    match answer {
        Answer::Replied(reply) => put_reply(line, reply),
        Answer::Placed { name, region } | Answer::Arraylet { name, region, .. } => {
            put_one(line, b" in", *region);
            put_name(line, name);
        }
    }
}

/// A row without the leaves of an arraylet: its thread and number, what it does, what it replied, and the region where
/// its object was placed, if it made one.
pub fn put_row(line: &mut Line, thread: u32, number: u32, op: &Op, answer: &Answer)
    requires { 200 ≤ line.old.spare }
    ensures { line.new.list ≡ row_front thread number op.now (reply_of answer.now)
        ++ spaced (region_words (spot_of answer.now)) ++ line.old.list }
{
    put_answer(line, answer);
    line.put(b" =");
    put_op(line, op);
    put_two(line, b"row", thread, number);
}

/// A card that was noted for a region, and the reference that it was noted for.
pub fn put_note(line: &mut Line, region: u32, card: u32, holder: &Name, slot: u32)
    requires { 128 ≤ line.old.spare }
    ensures { line.new.list ≡ codes "note" ++ spaced (decimal region ∷ decimal card ∷ name_word holder.now ∷ decimal slot ∷ []) ++ line.old.list }
{
    put_number(line, u64::from(slot));
    put_name(line, holder);
    put_two(line, b"note", region, card);
}

/// An item of a list. A list may be of any length, so its items go into the line one at a time.
pub trait Words {
    /// The item's words.
    ghost words: { Self → List (List ℕ) };

    /// Puts the item's words in a line.
    fn put(&self, line: &mut Line)
        requires { most_bytes ≤ line.old.spare }
        ensures { line.new.list ≡ spaced (words self.now) ++ line.old.list };
}

impl Words for u32 {
    ghost words = { λ n. decimal n ∷ [] };

    fn put(&self, line: &mut Line) {
        put_number(line, u64::from(*self));
    }
}

impl Words for Name {
    ghost words = { λ x. name_word x ∷ [] };

    fn put(&self, line: &mut Line) {
        put_name(line, self);
    }
}

impl Words for Kept {
    ghost words = { λ k. kept_word k ∷ [] };

    fn put(&self, line: &mut Line) {
        put_how(line, &self.how, self.worker);
        line.put(b":");
        put_name(line, &self.name);
    }
}

// How an evacuation kept an object, and which worker did: with no space.
fn put_how(line: &mut Line, how: &How, worker: u32)
    requires { 42 ≤ line.old.spare }
    ensures list { line.new.list ≡ how_word how.now worker ++ line.old.list }
    ensures room { line.old.spare ≤ line.new.spare + 42 }
{
    match *how {
        How::Copied(region) => {
            line.put_number(u64::from(region));
            line.put(b">");
            line.put_number(u64::from(worker));
            line.put(b"c");
        }
        How::Marked => {
            line.put_number(u64::from(worker));
            line.put(b"m");
        }
    }
}

impl Words for Abort {
    ghost words = { cause_words };

    fn put(&self, line: &mut Line) {
        match *self {
            Abort::Wished(worker) => put_one(line, b" wished", worker),
            Abort::Drained => line.put(b" drained"),
        }
    }
}

impl Words for Packed {
    ghost words = { λ k. packed_word k ∷ [] };

    fn put(&self, line: &mut Line) {
        line.put_number(u64::from(self.region));
        line.put(b">");
        put_name(line, &self.name);
    }
}
