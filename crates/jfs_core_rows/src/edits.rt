use jfs_bits::{Blob, PageKind, Pxd};
use jfs_disk::Page;
use jfs_ranges::{Edit, Tx, apply, touches};
use std::test::*;

struct Case {
    kind: PageKind,
    first: u32,
    count: usize,
    // The page that is looked at, and its bytes that are set.
    page: u32,
    from: usize,
    to: usize,
}

// Lines that begin in page 5.
const CASES: [Case; 9] = [
    Case {
        kind: PageKind::Xtree,
        first: 3,
        count: 32,
        page: 5,
        from: 48,
        to: 80,
    },
    Case {
        kind: PageKind::Index,
        first: 3,
        count: 32,
        page: 5,
        from: 48,
        to: 80,
    },
    Case {
        kind: PageKind::Dtree,
        first: 3,
        count: 32,
        page: 5,
        from: 96,
        to: 128,
    },
    Case {
        kind: PageKind::Inode,
        first: 3,
        count: 128,
        page: 5,
        from: 384,
        to: 512,
    },
    Case {
        kind: PageKind::Inode,
        first: 31,
        count: 256,
        page: 5,
        from: 3968,
        to: 4096,
    },
    Case {
        kind: PageKind::Inode,
        first: 31,
        count: 256,
        page: 6,
        from: 0,
        to: 128,
    },
    Case {
        kind: PageKind::Inode,
        first: 31,
        count: 256,
        page: 7,
        from: 0,
        to: 0,
    },
    Case {
        kind: PageKind::Inode,
        first: 0,
        count: 16384,
        page: 8,
        from: 0,
        to: 4096,
    },
    Case {
        kind: PageKind::Inode,
        first: 0,
        count: 16384,
        page: 4,
        from: 0,
        to: 0,
    },
];

#[test]
fn puts_lines(rt: HostRuntime) {
    let alloc = rt.alloc();
    for case in &CASES {
        let mut bytes = Blob::new(alloc);
        for _ in 0..case.count {
            bytes.push(9).expect(&rt, "memory");
        }
        let mut tx = Tx::new(alloc);
        tx.push(Edit::NoRedo { page: case.page })
            .expect(&rt, "memory");
        tx.push(Edit::Lines {
            page: 5,
            kind: case.kind,
            first: case.first,
            bytes,
        })
        .expect(&rt, "memory");
        tx.push(Edit::Free(Pxd { len: 1, addr: 5 }))
            .expect(&rt, "memory");
        let mut page = Page::zeros();
        apply(&tx, case.page, &mut page);
        for i in 0..4096 {
            let wanted = if case.from <= i && i < case.to { 9 } else { 0 };
            assert_eq!(rt; page.0[i], wanted);
        }
        assert_eq!(rt; touches(&tx, case.page), case.from < case.to);
    }
}
