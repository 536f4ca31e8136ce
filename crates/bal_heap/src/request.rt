//! What a row asks of the heap.
ghost use Rattle.std.specs.Prelude.{◌≡◌};
ghost use Rattle.bal_heap.specs.Request.{request_of};
ghost use Rattle.bal_model.specs.Built.{IsBuilt};
ghost use Rattle.bal_model.specs.Spelling.{IsOp};

use bal_layout::{Kind, Want, want_arr, want_new};
use bal_model::{Geometry, Op};

/// What an allocation asks for: an object with so many references and numbers, which a register then holds, and what it takes
/// of the heap.
#[derive(Clone, Copy)]
pub(crate) struct Request {
    pub(crate) register: u32,
    pub(crate) kind: Kind,
    pub(crate) refs: u32,
    pub(crate) values: u32,
    pub(crate) want: Want,
}

/// What a row asks for, if it allocates.
pub(crate) fn asked(op: &Op, geometry: &Geometry) -> Option<Request>
    requires in_range { IsOp geometry.now op.now }
    requires built { IsBuilt geometry.now op.now }
    ensures { result ≡ request_of geometry.now op.now }
{
    match *op {
        Op::New {
            register,
            refs,
            values,
        } => {
            let Some(want) = want_new(geometry, u64::from(refs), u64::from(values)) else {
                unreachable!()
            };
            Some(Request {
                register,
                kind: Kind::Plain,
                refs,
                values,
                want,
            })
        }
        Op::Arr { register, len } => {
            let Some(want) = want_arr(geometry, u64::from(len)) else {
                unreachable!()
            };
            Some(Request {
                register,
                kind: Kind::Array,
                refs: len,
                values: 0,
                want,
            })
        }
        _ => None,
    }
}
