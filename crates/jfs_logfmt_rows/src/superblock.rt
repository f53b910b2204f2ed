use jfs_bits::Rule;
use jfs_disk::Page;
use jfs_logfmt::{BadRecord, LogSuper, read_log_super, write_log_super};
use std::test::*;
use uuid::Uuid;

// Magic 0x87654321, version 1, serial 0, 1,024 pages, blocks of 4,096 bytes and their logarithm 12,
// flag, state and end 0, the volume's uuid, the label.
const BYTES: [u8; 68] = [
    0x21, 0x43, 0x65, 0x87, 1, 0, 0, 0, 0, 0, 0, 0, 0, 4, 0, 0, 0, 0x10, 0, 0, 12, 0, 0, 0, 0, 0,
    0, 0, 0, 0, 0, 0, 0, 0, 0, 0, 0xa0, 0xa1, 0xa2, 0xa3, 0xa4, 0xa5, 0xa6, 0xa7, 0xa8, 0xa9, 0xaa,
    0xab, 0xac, 0xad, 0xae, 0xaf, b'j', b'f', b's', b'd', b' ', b'p', b'r', b'o', b'f', b'i', b'l',
    b'e', b' ', b'1', 0, 0,
];

#[test]
fn both_ways(rt: HostRuntime) {
    let s = LogSuper {
        serial: 0,
        size: 1024,
        state: 0,
        uuid: Uuid::from_bytes([
            0xa0, 0xa1, 0xa2, 0xa3, 0xa4, 0xa5, 0xa6, 0xa7, 0xa8, 0xa9, 0xaa, 0xab, 0xac, 0xad,
            0xae, 0xaf,
        ]),
        label: *b"jfsd profile 1\0\0",
    };
    let mut page = Page::zeros();
    write_log_super(&s, &mut page);
    assert_eq!(rt; page.0[..68], BYTES[..]);
    assert!(rt; page.0[68..].iter().all(|b| *b == 0));
    assert_eq!(rt; read_log_super(&page), Ok(s));

    let refused = Err(BadRecord { rule: Rule::Super });
    page.0[4] = 2;
    assert_eq!(rt; read_log_super(&page), refused);
    page.0[4] = 1;
    page.0[0] = 0x20;
    assert_eq!(rt; read_log_super(&page), refused);
}
