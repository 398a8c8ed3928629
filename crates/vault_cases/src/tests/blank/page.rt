//! The numbers of the page, at the places that the format gives.
use std::alloc::Global;
use vault_blank::page::{blank_page, write_blank};

/// The number in so many bytes at a place.
fn number_at(page: &[u8], at: usize, width: usize) -> Option<u64> {
    let mut number = 0u64;
    for byte in page.get(at..at.checked_add(width)?)? {
        number = number.checked_mul(256)?.checked_add(u64::from(*byte))?;
    }
    Some(number)
}

/// Places, widths and numbers.
const FIELDS: [(usize, usize, u64); 27] = [
    (16, 2, 512),
    (18, 1, 2),
    (19, 1, 2),
    (20, 1, 0),
    (21, 1, 64),
    (22, 1, 32),
    (23, 1, 32),
    (24, 4, 1),
    (28, 4, 1),
    (32, 4, 0),
    (36, 4, 0),
    (40, 4, 0),
    (44, 4, 4),
    (48, 4, 0),
    (52, 4, 0),
    (56, 4, 1),
    (60, 4, 0),
    (64, 4, 0),
    (68, 4, 0x5641_554c),
    (72, 8, 0),
    (80, 8, 0),
    (88, 4, 0),
    (92, 4, 1),
    (96, 4, 3_045_000),
    (100, 1, 13),
    (101, 4, 0),
    (105, 3, 512 * 256),
];

/// Whether the page has 512 bytes, begins with the format's name, and has no byte behind its fields.
fn is_framed(page: &[u8]) -> bool {
    page.len() == 512
        && page.starts_with(b"SQLite format 3\0")
        && page.iter().skip(108).all(|byte| *byte == 0)
}

/// Whether what is written is the page.
fn is_written(alloc: Global) -> bool {
    let mut written = Vec::new(alloc);
    write_blank(&mut written).is_ok() && written.as_slice() == blank_page().as_slice()
}

#[test]
fn each_field_has_its_place(rt: HostRuntime) {
    let page = blank_page();
    assert!(rt; is_framed(&page) && is_written(rt.alloc()));
    for (at, width, number) in FIELDS {
        assert!(rt; number_at(&page, at, width) == Some(number), "{at}");
    }
}
