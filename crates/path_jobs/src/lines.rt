//! Byte strings, one after the other in one buffer.
use std::alloc::{AllocError, Global};
use unix_path::Path;

#[derive(Drop)]
pub(crate) struct Lines {
    bytes: Vec<u8>,
    ends: Vec<usize>,
}

impl Lines {
    pub(crate) fn new(alloc: Global) -> Lines {
        Lines {
            bytes: Vec::new(alloc),
            ends: Vec::new(alloc),
        }
    }

    // Returns the buffer, to which the bytes of the next line are appended; `end_line` ends the
    // line.
    pub(crate) fn buffer(&mut self) -> &mut Vec<u8> {
        &mut self.bytes
    }

    pub(crate) fn end_line(&mut self) -> Result<(), AllocError> {
        self.ends.push(self.bytes.len())?;
        Ok(())
    }

    // Returns the lines as paths.
    pub(crate) fn paths(&self, alloc: Global) -> Result<Vec<Path<'_>>, AllocError> {
        let mut paths = Vec::with_capacity(alloc, self.ends.len())?;
        let mut start = 0;
        for end in self.ends.iter() {
            if let Some(line) = self.bytes.as_slice().get(start..*end) {
                paths.push(Path::from_bytes(line))?;
            }
            start = *end;
        }
        Ok(paths)
    }
}
