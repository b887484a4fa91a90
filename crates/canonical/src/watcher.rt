// A sink in which a value watches the bytes that are written, one after the other.
ghost use Rattle.std.specs.Prelude.{◌≡◌, ℕ, List};
ghost use Rattle.canonical.specs.Watching.{watched, watched_wraps};

use sink::{Full, Sink};

// What each byte that is written changes.
pub trait Watch: Copy {
    ghost step: { List ℕ → ℕ → List ℕ };

    ghost state: { Self → List ℕ };

    // After one more byte.
    fn after(self, b: u8) -> Self
        ensures { state result ≡ step (state self) b };
}

#[derive(Clone, Copy)]
pub struct Watcher<T> {
    pub watching: T,
    count: u128,
}

impl<T: Watch> Watcher<T> {
    // Before the first byte.
    pub fn new(watching: T) -> Watcher<T>
        ensures { (result.watching ≡ watching) × (result.count ≡ 0) }
    {
        Watcher { watching, count: 0 }
    }
}

impl<T: Watch> Sink for Watcher<T> {
    ghost step = { T.Watch.step };

    ghost held = { λ s. watched (T.Watch.state s.watching) s.count };

    ghost wraps = { λ s. watched_wraps (T.Watch.state s.watching) s.count };

    fn write(&mut self, bytes: &[u8]) -> Result<(), Full> {
        let count = self.count.checked_add(bytes.len() as u128).ok_or(Full)?;
        self.watching = bytes
            .iter()
            .fold(self.watching, |watching, b| watching.after(*b));
        self.count = count;
        Ok(())
    }
}
