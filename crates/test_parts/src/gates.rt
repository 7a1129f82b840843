//! A gate at which two workers are seen side by side.
use edge_io::Gate;
use std::sync::atomic::{AtomicU64, Ordering};
use std::thread;

/// Worker 1 raises its flag, and worker 0 looks for it, this many times at most, and notes whether it saw it. Workers that run
/// one after another never show it, since worker 0 has then gone on before worker 1 comes.
#[derive(Drop)]
pub struct Meet {
    came: AtomicU64,
    seen: AtomicU64,
}

impl Meet {
    pub fn new() -> Meet {
        Meet {
            came: AtomicU64::new(0),
            seen: AtomicU64::new(0),
        }
    }

    /// Whether worker 0 saw the flag of worker 1.
    pub fn was_seen(&self) -> bool {
        self.seen.load(Ordering::SeqCst) == 1
    }
}

impl Gate for Meet {
    fn pass(&self, worker: u32) {
        if worker == 1 {
            self.came.store(1, Ordering::SeqCst);
        }
        if worker == 0 {
            for _ in 0..1_000_000 {
                if self.came.load(Ordering::SeqCst) == 1 {
                    self.seen.store(1, Ordering::SeqCst);
                    break;
                }
                thread::yield_now();
            }
        }
    }
}
