// A trio in whichever state it is.
use trio::{Idle, Run};

#[derive(Drop)]
pub enum State<L, R, S> {
    Resting(Idle<L, R, S>),
    Running(Run<L, R, S>),
}
