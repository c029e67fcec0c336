//! All short strings over some letters.
use std::alloc::{AllocError, Global};

// Returns the string followed by the letter.
fn with_letter(alloc: Global, string: &[u8], letter: u8) -> Result<Vec<u8>, AllocError> {
    let mut longer = Vec::from_slice(alloc, string)?;
    longer.push(letter)?;
    Ok(longer)
}

/// Returns strings over these letters, shorter ones first. The first string is empty. Each of the
/// first `shorter` strings is also in the list with each letter appended.
///
/// For the letters `ab` and `shorter` 1, the strings are the empty string, `a` and `b`. Fails if an
/// allocation fails.
pub fn strings_over(
    alloc: Global,
    letters: &[u8],
    shorter: usize,
) -> Result<Vec<Vec<u8>>, AllocError> {
    let mut strings = Vec::new(alloc);
    strings.push(Vec::new(alloc))?;
    for at in 0..shorter {
        for letter in letters {
            let string = match strings.get(at) {
                Some(string) => string.as_slice(),
                None => b"",
            };
            let longer = with_letter(alloc, string, *letter)?;
            strings.push(longer)?;
        }
    }
    Ok(strings)
}
