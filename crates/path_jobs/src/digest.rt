//! A digest of results: lengths and bytes combined into one number.
use unix_path::Path;
use unix_path::bytes::UnixStr;

#[derive(Drop)]
pub(crate) struct Digest {
    state: u64,
}

impl Digest {
    pub(crate) fn new() -> Digest {
        Digest { state: 0 }
    }

    #[inline]
    pub(crate) fn add(&mut self, number: u64) {
        self.state = (self.state.rotate_left(5) ^ number).wrapping_mul(0x517C_C1B7_2722_0A95);
    }

    #[inline]
    pub(crate) fn add_flag(&mut self, flag: bool) {
        self.add(u64::from(flag));
    }

    // Adds the bytes in words of eight, and then a word made of the remaining bytes and the length.
    pub(crate) fn add_bytes(&mut self, bytes: &[u8]) {
        let (words, rest) = bytes.as_chunks::<8>();
        for word in words {
            self.add(u64::from_le_bytes(*word));
        }
        let mut last = bytes.len() as u64;
        for byte in rest {
            last = last << 8 | u64::from(*byte);
        }
        self.add(last);
    }

    pub(crate) fn add_path(&mut self, path: Path<'_>) {
        self.add_bytes(path.as_unix_str().as_bytes());
    }

    // Adds the text, or `u64::MAX` if there is none.
    pub(crate) fn add_text(&mut self, text: Option<UnixStr<'_>>) {
        match text {
            Some(text) => self.add_bytes(text.as_bytes()),
            None => self.add(u64::MAX),
        }
    }

    pub(crate) fn get(&self) -> u64 {
        self.state
    }
}
