//! How long `tcprules` waits for another installation that has its scratch file.
use dir_disk::Waits;
use std::io::Write;
use std::thread;
use std::time::{Clock, Duration, Instant};

/// How long one try is before the next, in milliseconds.
const PAUSE: u64 = 20;

/// After how many seconds the wait for another installation is told.
const TOLD_AFTER: u64 = 3;

/// After how many seconds it is given up.
const GIVEN_UP_AFTER: u64 = 60;

/// What is told of a wait.
const WAITING: &[u8] = b"tcprules: waiting for another installation\n";

/// A wait that is told after three seconds, and given up after a minute, of all tries together.
#[derive(Drop)]
pub struct Waiting<'a, C, E> {
    clock: &'a C,
    errors: Option<E>,
    began: Option<Instant>,
    pauses: u64,
    told: bool,
}

impl<'a, C: Clock, E> Waiting<'a, C, E> {
    /// A wait that has not begun. It is told on `errors`, if there are any.
    pub fn new(clock: &'a C, errors: Option<E>) -> Waiting<'a, C, E> {
        Waiting {
            clock,
            errors,
            began: None,
            pauses: 0,
            told: false,
        }
    }

    // How many whole seconds it has lasted: by the clock, or, where that fails, by its pauses.
    fn seconds(&mut self) -> u64 {
        if self.began.is_none() {
            self.began = Instant::now(self.clock).ok();
        }
        if let Some(began) = &self.began
            && let Ok(waited) = began.elapsed(self.clock)
        {
            return waited.as_secs();
        }
        self.pauses.saturating_mul(PAUSE) / 1_000
    }
}

impl<'a, C: Clock, E: Write> Waits for Waiting<'a, C, E> {
    fn wait(&mut self) -> bool {
        let waited = self.seconds();
        if waited >= GIVEN_UP_AFTER {
            return false;
        }
        if waited >= TOLD_AFTER && !self.told {
            if let Some(errors) = &mut self.errors {
                let _ = errors.write_all(WAITING);
            }
            self.told = true;
        }
        self.pauses = self.pauses.saturating_add(1);
        thread::sleep(self.clock, Duration::from_millis(PAUSE));
        true
    }
}
