// Where the workers of a link pass.

/// A gate that each worker passes before its first object, and leaves after its last row.
/// What a gate does at these calls changes no answer: it may count, or hold a worker for a while.
pub trait Gate: Sync {
    /// A worker begins; workers are numbered from 0.
    fn pass(&self, worker: u32);

    /// A worker has ended; it has entered `rows` rows.
    fn left(&self, worker: u32, rows: u32);
}

/// The gate that lets every worker pass.
#[derive(Clone, Copy, Debug)]
pub struct Open;

impl Gate for Open {
    fn pass(&self, _: u32) {}

    fn left(&self, _: u32, _: u32) {}
}
