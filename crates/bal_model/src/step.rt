//! The plain step: what one row replies, and what it does to the plain graph.
ghost use Rattle.std.specs.Prelude.{◌≡◌, ◌<◌, ◌-◌, ◌^◌, IfOk, OnOk, OnErr};
ghost use Rattle.bal_model.specs.Plain.{step, made_by};
ghost use Rattle.bal_model.specs.Graph.{IsInRange};

use crate::{Op, Plain, Reply};
use bal_base::NoMemory;

/// Executes one row of a thread on the plain graph, and answers its reply, which is never `Full`.
pub fn step_plain(state: &mut Plain, thread: u32, op: &Op) -> Result<Reply, NoMemory>
    requires thread { thread < 32 }
    requires in_range { IsInRange op.now }
    requires ordinals { made_by state.old thread < 2 ^ 32 - 1 }
    ensures reply { IfOk result (λ reply. reply ≡ (step state.old thread op.now).0) }
    ensures graph { OnOk result (state.new ≡ (step state.old thread op.now).1) }
    ensures err { OnErr result (state.new ≡ state.old) }
{
    match *op {
        Op::New {
            register,
            refs,
            values,
        } => Ok(Reply::Name(state.make_object(thread, register, refs, values)?)),
        Op::Arr { register, len } => Ok(Reply::Name(state.make_array(thread, register, len)?)),
        Op::Store {
            holder,
            slot,
            value,
        } => Ok(state.store(thread, holder, slot, value)),
        Op::Load { into, holder, slot } => Ok(state.load(thread, into, holder, slot)),
        Op::Put {
            holder,
            slot,
            number,
        } => Ok(state.put(thread, holder, slot, number)),
        Op::Get { holder, slot } => Ok(state.get(thread, holder, slot)),
        Op::GStore { global, register } => {
            state.set_global(thread, global, register);
            Ok(Reply::Ok)
        }
        Op::GLoad { into, global } => Ok(state.take_global(thread, into, global)),
        Op::Drop { register } => {
            state.set_register(thread, register, None);
            Ok(Reply::Ok)
        }
        Op::Gc => Ok(Reply::Ok),
    }
}
