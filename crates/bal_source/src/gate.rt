//! What a worker passes before each of its steps.
/// What a worker passes before each step on a shared word. It changes nothing. Tests use it to settle an order.
pub trait Gate {
    fn before(&self, thread: u32);
}

/// The gate of the program, which is always open.
#[derive(Clone, Copy)]
pub struct OpenGate;

impl Gate for OpenGate {
    fn before(&self, _thread: u32) {}
}
