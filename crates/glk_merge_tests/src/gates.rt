// Gates that record the workers.
use glk_io::Gate;
use std::sync::atomic::{AtomicU64, Ordering};

// Which workers have passed and left, as sums of powers of two; how many left before they passed; and
// how many rows they entered.
#[derive(Drop)]
pub struct Recorder {
    pub passed: AtomicU64,
    pub left: AtomicU64,
    pub early: AtomicU64,
    pub rows: AtomicU64,
}

impl Recorder {
    pub fn new() -> Recorder {
        Recorder {
            passed: AtomicU64::new(0),
            left: AtomicU64::new(0),
            early: AtomicU64::new(0),
            rows: AtomicU64::new(0),
        }
    }
}

impl Gate for Recorder {
    fn pass(&self, worker: u32) {
        self.passed.fetch_add(1 << (worker % 64), Ordering::SeqCst);
    }

    fn left(&self, worker: u32, rows: u32) {
        let bit = 1 << (worker % 64);
        if self.passed.load(Ordering::SeqCst) & bit == 0 {
            self.early.fetch_add(1, Ordering::SeqCst);
        }
        self.left.fetch_add(bit, Ordering::SeqCst);
        self.rows.fetch_add(rows as u64, Ordering::SeqCst);
    }
}

// Holds worker 0 until worker 1 has left, and worker 1 until worker 0 has passed, each for a while.
#[derive(Drop)]
pub struct Held {
    pub passed: AtomicU64,
    pub left: AtomicU64,
    pub in_time: AtomicU64,
    pub rows: AtomicU64,
}

impl Held {
    pub fn new() -> Held {
        Held {
            passed: AtomicU64::new(0),
            left: AtomicU64::new(0),
            in_time: AtomicU64::new(0),
            rows: AtomicU64::new(0),
        }
    }
}

fn wait_for(word: &AtomicU64) -> bool {
    for _ in 0..10_000_000u32 {
        if word.load(Ordering::SeqCst) > 0 {
            return true;
        }
    }
    false
}

impl Gate for Held {
    fn pass(&self, worker: u32) {
        if worker == 0 {
            self.passed.store(1, Ordering::SeqCst);
            if wait_for(&self.left) {
                self.in_time.store(1, Ordering::SeqCst);
            }
        } else {
            wait_for(&self.passed);
        }
    }

    fn left(&self, worker: u32, rows: u32) {
        self.rows.fetch_add(rows as u64, Ordering::SeqCst);
        if worker == 1 {
            self.left.store(rows as u64, Ordering::SeqCst);
        }
    }
}
