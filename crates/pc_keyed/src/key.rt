//! The hash key of a table.

use std::hash::{BuildHasher, DefaultHasher, Hasher};

/// How many bytes the hash function takes at a time.
const WORD: usize = 8;

/// Padding for a word.
const FILLING: [u8; WORD] = [0; WORD];

/// Makes the hashers of a table: each has read everything the key is made of before it reads a name of the table
/// (SipHash-1-3, keyed by what was read first).
#[derive(Clone, Copy)]
pub struct KeyedBy {
    read: DefaultHasher,
}

impl KeyedBy {
    /// The key made of nothing. No contract depends on a key, so neither this call nor those below promise anything.
    pub fn nothing() -> KeyedBy {
        KeyedBy {
            read: DefaultHasher::new(),
        }
    }

    /// Extends the key by this name.
    pub fn add(&mut self, name: &[u8]) {
        self.read.write_usize(name.len());
        self.read.write(name);
        // After padding to the end of a word, a hasher reads the names of the table by words, not by bytes.
        self.read.write(&FILLING[name.len() % WORD..]);
    }

    /// Extends the key by this number.
    pub fn add_number(&mut self, number: u32) {
        self.read.write_usize(number as usize);
    }
}

impl BuildHasher for KeyedBy {
    type Hasher = DefaultHasher;

    ghost build_hasher = { λ k. k.read };

    fn build_hasher(&self) -> DefaultHasher {
        self.read
    }
}
