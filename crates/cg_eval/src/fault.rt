// What evaluation answers in place of a value.
use thiserror::Error;

/// There is no value: the steps are too few, or memory is wanting.
#[derive(Clone, Copy, Debug, PartialEq, Eq, Error)]
pub enum EvalFault {
    #[error("step limit reached")]
    StepLimit,
    #[error("out of memory")]
    Memory,
}
