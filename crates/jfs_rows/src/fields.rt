//! Fields and descriptors as bytes, the layout that a superblock gives, and the words that name files.

use crate::refusals::change;
use crate::volume::sound_page;
use jfs_bits::{
    Moment, PageKind, Pxd, Rule, get_array, get_moment, get_pxd, get_u8, get_u16, get_u32, get_u64,
    put_array, put_moment, put_pxd, put_u8, put_u16, put_u32, put_u64,
};
use jfs_command::{PathsError, Usage, paths_of};
use jfs_super::{geometry, read_super};

/// Descriptors and their bytes.
const RUNS: [(u32, u64, [u8; 8]); 3] = [
    (1024, 3072, [0x00, 0x04, 0x00, 0x00, 0x00, 0x0c, 0x00, 0x00]),
    (16_777_215, 1_099_511_627_775, [0xff; 8]),
    (
        1,
        4_294_967_296,
        [0x01, 0x00, 0x00, 0x01, 0x00, 0x00, 0x00, 0x00],
    ),
];

#[test]
fn runs_of_blocks(rt: HostRuntime) {
    for (len, addr, bytes) in RUNS {
        let mut page = [0x55u8; 12];
        let run = Pxd {
            len: len % (1 << 24),
            addr: addr % (1 << 40),
        };
        put_pxd(&mut page, 2, run);
        assert_eq!(rt; &page[2..10], bytes.as_slice());
        assert_eq!(rt; &page[..2], [0x55, 0x55].as_slice());
        assert_eq!(rt; &page[10..], [0x55, 0x55].as_slice());
        assert_eq!(rt; get_pxd(&page, 2), Pxd { len, addr });
    }
}

#[test]
fn fields_are_little_endian(rt: HostRuntime) {
    let mut page = [0u8; 30];
    put_u8(&mut page, 0, 0x12);
    put_u16(&mut page, 1, 0x1234);
    put_u32(&mut page, 3, 0x1234_5678);
    put_u64(&mut page, 7, 0x0123_4567_89ab_cdef);
    put_array(&mut page, 15, b"abc");
    put_moment(&mut page, 18, Moment { sec: 1, nano: 2 });
    let want =
        b"\x12\x34\x12\x78\x56\x34\x12\xef\xcd\xab\x89\x67\x45\x23\x01abc\x01\0\0\0\x02\0\0\0\0\0\0\0";
    assert_eq!(rt; page.as_slice(), want.as_slice());
    assert_eq!(rt; get_u8(&page, 0), 0x12);
    assert_eq!(rt; get_u16(&page, 1), 0x1234);
    assert_eq!(rt; get_u32(&page, 3), 0x1234_5678);
    assert_eq!(rt; get_u64(&page, 7), 0x0123_4567_89ab_cdef);
    assert_eq!(rt; get_array::<3>(&page, 15), *b"abc");
    assert_eq!(rt; get_moment(&page, 18), Moment { sec: 1, nano: 2 });
}

#[test]
fn the_layout_follows_the_log(rt: HostRuntime) -> Result<(), std::test::Fail> {
    for (log_pages, file_limit) in [
        (1024u32, 268_435_456),
        (1023, 33_554_432),
        (256, 33_554_432),
    ] {
        let mut page = sound_page();
        change(&mut page, &[(72, 4, u64::from(log_pages))]);
        let s = read_super(&page, 4096).ok().ok_or("accepted")?;
        let layout = geometry(&s);
        assert_eq!(rt; layout.blocks, 3008);
        assert_eq!(rt; layout.agsize, 8192);
        assert_eq!(rt;
            layout.log,
            Pxd {
                len: log_pages,
                addr: 3072
            }
        );
        assert_eq!(rt; layout.file_limit, file_limit);
    }
    Ok(())
}

#[test]
fn words_name_the_image(rt: HostRuntime) -> Result<(), std::test::Fail> {
    let alloc = rt.alloc();
    let mut words = Vec::new(alloc);
    assert!(rt;
        matches!(
            paths_of(alloc, &words),
            Err(PathsError::Usage(Usage { word: 1 }))
        )
    );
    words.push(Vec::from_slice(alloc, b"super")?)?;
    assert!(rt;
        matches!(
            paths_of(alloc, &words),
            Err(PathsError::Usage(Usage { word: 2 }))
        )
    );
    words.push(Vec::from_slice(alloc, b"image")?)?;
    let paths = paths_of(alloc, &words).ok().ok_or("an image")?;
    assert_eq!(rt; paths.image, 2);
    assert!(rt; paths.scripts.is_empty());

    // A word that isn't text names nothing.
    let mut words = Vec::new(alloc);
    words.push(Vec::from_slice(alloc, b"super")?)?;
    words.push(Vec::from_slice(alloc, b"\xff")?)?;
    assert!(rt;
        matches!(
            paths_of(alloc, &words),
            Err(PathsError::Usage(Usage { word: 2 }))
        )
    );
    Ok(())
}

#[test]
fn names_of_rules_and_kinds(rt: HostRuntime) {
    assert_eq!(rt; Rule::BadType.name(), "type");
    assert_eq!(rt; Rule::L2bfactor.name(), "l2bfactor");
    assert_eq!(rt; PageKind::Dtree as u16, 4);
}
