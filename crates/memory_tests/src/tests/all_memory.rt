//! What `Exhausted` promises: no allocation succeeds while it exists.
use super::is_refused;
use memory_pressure::Exhausted;
use std::test::Fail;

// With an allocator other than the C library's, such as a memory checker's, this test and all
// others that use `Exhausted` fail.
#[test]
fn all_memory_is_taken_and_given_back(rt: HostRuntime) -> Result<(), Fail> {
    let alloc = rt.alloc();
    let mut exhausted = Exhausted::begin(alloc)?.ok_or("not all memory could be allocated")?;
    for len in [1, 40, 1000, 2048, 4096] {
        assert!(rt; is_refused(alloc, len), "{len}");
    }
    assert!(rt; exhausted.release() && !is_refused(alloc, 2048) && is_refused(alloc, 4096));
    drop(exhausted);
    assert!(rt; !is_refused(alloc, 4096));
    Ok(())
}
