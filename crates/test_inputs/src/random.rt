//! Random bytes. Equal seeds produce equal bytes.
use std::alloc::{AllocError, Global};

// Half of the strings have only these bytes, so that slashes and dots are frequent.
static LETTERS: [u8; 8] = *b"//../.ab";

/// The random number generator splitmix64 (Steele, Lea and Flood, 2014).
///
/// Each generator that `Random::new(1)` returns produces the same numbers and strings.
#[derive(Drop)]
pub struct Random {
    state: u64,
}

impl Random {
    /// Returns a generator with this seed.
    pub fn new(seed: u64) -> Random {
        Random { state: seed }
    }

    /// Returns the next number.
    pub fn next(&mut self) -> u64 {
        self.state = self.state.wrapping_add(0x9E37_79B9_7F4A_7C15);
        let mixed = (self.state ^ self.state >> 30).wrapping_mul(0xBF58_476D_1CE4_E5B9);
        let mixed = (mixed ^ mixed >> 27).wrapping_mul(0x94D0_49BB_1331_11EB);
        mixed ^ mixed >> 31
    }

    // Returns a random byte of a string. If `has_letters_alone` is true, the byte is in `LETTERS`.
    // Otherwise it is any byte in three of four cases, and in `LETTERS` in the fourth.
    fn byte(&mut self, has_letters_alone: bool) -> u8 {
        let word = self.next();
        let is_letter = has_letters_alone || word >> 32 & 3 == 0;
        if is_letter {
            LETTERS[(word & 7) as usize]
        } else {
            (word & 0xFF) as u8
        }
    }

    /// Returns a string of at most 64 bytes. Half of the strings have only slashes, dots, `a` and
    /// `b`.
    ///
    /// Fails if an allocation fails.
    pub fn string(&mut self, alloc: Global) -> Result<Vec<u8>, AllocError> {
        let word = self.next();
        let has_letters_alone = word >> 32 & 1 == 0;
        let mut bytes = Vec::new(alloc);
        for _ in 0..word % 65 {
            bytes.push(self.byte(has_letters_alone))?;
        }
        Ok(bytes)
    }
}
