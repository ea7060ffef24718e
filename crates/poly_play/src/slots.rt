//! What a script keeps under names.

use poly_design::Name;
use poly_grid::Refusal;
use std::alloc::Global;

/// Values with names, each name once.
#[derive(Drop)]
pub struct Slots<T: Drop> {
    entries: Vec<(Name, T)>,
}

impl<T: Drop> Slots<T> {
    /// No values.
    pub fn new(alloc: Global) -> Slots<T> {
        Slots {
            entries: Vec::new(alloc),
        }
    }

    /// Keeps the value under the name, in place of another one. Asks for memory a second time if it is refused.
    pub fn put(&mut self, name: Name, value: T) {
        self.remove(name);
        let _ = self.entries.reserve(1);
        let _ = self.entries.push((name, value));
    }

    fn remove(&mut self, name: Name) {
        if let Some(at) = self.entries.iter().position(|entry| entry.0 == name) {
            let _ = self.entries.swap_remove(at);
        }
    }

    /// The value with the name. Fails with `BadCommand` if there is none.
    pub fn get(&self, name: Name) -> Result<&T, Refusal> {
        for entry in &self.entries {
            if entry.0 == name {
                return Ok(&entry.1);
            }
        }
        Err(Refusal::BadCommand)
    }
}
