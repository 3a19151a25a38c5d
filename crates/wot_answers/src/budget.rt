//! How many looks a view's searches may take before making a table of reach pays off. `answers` keeps one for each
//! view: `ask` reads it, and `making` takes the looks that were spent from it. Only speed depends on it.
use wot_keyring::Keyring;
use wot_search::Making;

/// The assumed looks per certificate for making a table, until one was made.
const LOOKS: u64 = 8;

/// The looks that searches may take after a change until a table of reach is made. There are as many as making the
/// table takes, so at most twice the least possible number is spent.
#[derive(Drop)]
pub struct Budget {
    // The keyring's count of changes, the revision of the roots and the time for which `left` holds.
    count: u64,
    revision: u64,
    time: u32,
    left: u64,
    // The number of edges of the last table; 0 before the first one.
    edges: u64,
}

impl Budget {
    pub fn new() -> Budget {
        Budget {
            count: 0,
            revision: 0,
            time: 0,
            left: 0,
            edges: 0,
        }
    }

    /// How many looks are left at this count of changes, this revision of the roots and this time.
    pub fn left(&self, keyring: &Keyring, revision: u64, time: u32) -> u64 {
        if self.count == keyring.changes() && self.revision == revision && self.time == time {
            return self.left;
        }
        self.most(keyring)
    }

    /// How many looks making a table takes.
    pub fn most(&self, keyring: &Keyring) -> u64 {
        if self.edges > 0 {
            return self.edges;
        }
        (keyring.len() as u64)
            .saturating_add(64)
            .saturating_mul(LOOKS)
    }

    /// Notes how many looks are left.
    pub fn leave(&mut self, count: u64, revision: u64, time: u32, left: u64) {
        self.count = count;
        self.revision = revision;
        self.time = time;
        self.left = left;
    }

    /// Notes the number of edges of a table, once it is finished.
    pub fn learn(&mut self, making: &Making) {
        if let Some(reach) = making.reach() {
            self.edges = reach.edges() as u64;
        }
    }
}
