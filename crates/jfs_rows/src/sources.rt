//! Sources in memory.

use jfs_io::{IoFailed, MemSource, Source, SureSource};

#[test]
fn sources_give_their_bytes_in_order(rt: HostRuntime) -> Result<(), std::test::Fail> {
    let alloc = rt.alloc();
    let mut source = SureSource::new(Vec::from_slice(alloc, b"abcde")?);
    let mut buffer = *b"....";
    assert_eq!(rt; source.take(&mut buffer), Ok(4));
    assert_eq!(rt; buffer, *b"abcd");
    assert_eq!(rt; source.take(&mut buffer), Ok(1));
    assert_eq!(rt; buffer, *b"ebcd");
    assert_eq!(rt; source.take(&mut buffer), Ok(0));
    assert_eq!(rt; source.faults(), 0);
    Ok(())
}

#[test]
fn a_source_fails_where_it_is_told_to(rt: HostRuntime) -> Result<(), std::test::Fail> {
    let alloc = rt.alloc();
    let mut source = MemSource::new(Vec::from_slice(alloc, b"abc")?).with_fails(2, 3);
    let mut buffer = [0u8; 2];
    assert_eq!(rt; source.take(&mut buffer), Ok(2));
    assert_eq!(rt; source.take(&mut buffer), Err(IoFailed));
    assert_eq!(rt; source.take(&mut buffer), Err(IoFailed));
    assert_eq!(rt; source.take(&mut buffer), Ok(1));
    assert_eq!(rt; buffer, *b"cb");
    assert_eq!(rt; source.faults(), 2);
    Ok(())
}
