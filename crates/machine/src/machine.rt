// The machine.
ghost use Rattle.machine.specs.Sound.{Sound};

use super::inner::Inner;

mod allows;
mod calls;
mod ends;
mod finds;
mod opens;
mod steps;
mod words;

/// A machine that runs the lines of closed tables. It is used up when it is finished.
#[derive(Drop)]
pub struct Machine {
    inner: Inner,
    ghost sound: { Sound inner },
}
