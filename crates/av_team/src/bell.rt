//! How threads wait for work.
use std::sync::Wait;
use std::sync::atomic::{AtomicU64, Ordering};
use std::time::Duration;
use std::{hint, thread};

/// How often a thread that waits looks again at once: for some microseconds.
const LOOKS: u32 = 64;

/// How often it then lets other threads run before it looks again: for some 50 microseconds where no other has anything to do.
const YIELDS: u32 = 64;

/// The most milliseconds that it then sleeps. What it waits for wakes it before.
const SLEEP: u64 = 1;

/// Rings for each piece of work that is handed out.
#[derive(Drop)]
pub(crate) struct Bell {
    rings: AtomicU64,
    sleepers: AtomicU64,
}

impl Bell {
    /// It has not rung.
    pub(crate) fn new() -> Self {
        Bell {
            rings: AtomicU64::new(0),
            sleepers: AtomicU64::new(0),
        }
    }

    /// How often it has rung.
    pub(crate) fn rings(&self) -> u64 {
        self.rings.load(Ordering::SeqCst)
    }

    /// Rings once more. A thread that sleeps wakes, if there is one.
    pub(crate) fn ring(&self) {
        self.rings.fetch_add(1, Ordering::SeqCst);
        if self.sleepers.load(Ordering::SeqCst) != 0 {
            self.rings.wake_one();
        }
    }

    /// Waits for the next ring behind so many, but not long. Says whether it came: it may have come also where not.
    pub(crate) fn wait<R: Wait>(&self, rt: &R, heard: u64) -> bool {
        for _ in 0..LOOKS {
            if self.rings() != heard {
                return true;
            }
            hint::spin_loop();
        }
        for _ in 0..YIELDS {
            if self.rings() != heard {
                return true;
            }
            thread::yield_now();
        }
        self.sleep(rt, heard);
        self.rings() != heard
    }

    /// Sleeps until the next ring behind so many. One that comes before the thread sleeps keeps it awake.
    fn sleep<R: Wait>(&self, rt: &R, heard: u64) {
        self.sleepers.fetch_add(1, Ordering::SeqCst);
        let most = Duration::from_millis(SLEEP);
        self.rings
            .park_timeout(rt, (heard & 0xffff_ffff) as u32, most);
        self.sleepers.fetch_sub(1, Ordering::SeqCst);
    }
}
