use crate::outline::Outline;
use crate::task::Task;

/// All of a program that takes memory, made while its plan is still whole.
#[derive(Drop)]
pub struct Groundwork {
    pub outlines: Vec<Outline>,
    /// None yet, and room for a task for each outline.
    pub tasks: Vec<Task>,
}
