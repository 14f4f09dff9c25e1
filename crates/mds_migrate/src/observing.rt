//! What is called before each step of a migration.

/// Shows how far a migration is. It has no clauses, as what becomes of the store doesn't depend on it.
pub trait StepObserver {
    /// A step begins, which leads to this schema, from 2 up to the current one. It may still fail.
    fn begin(&mut self, schema: u8);
}

/// Shows nothing.
#[derive(Clone, Copy)]
pub struct Unobserved;

impl StepObserver for Unobserved {
    fn begin(&mut self, _: u8) {}
}
