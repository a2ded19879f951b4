use super::*;
use arrayvec::ArrayVec;
use grid_types::{Geometry, PAGE_BYTES, Shape};
use std::test::*;

const SHAPE: Shape = Shape {
    k: 2,
    capacity: 3,
    pages: 64,
    slots: 8,
    boundaries: 1000,
    cells: 1_000_000,
};

/// The fields of a root with that number and front.
fn fields(number: u64, front: u64) -> RootHeader {
    let mut boundaries = ArrayVec::new();
    boundaries.push(3);
    boundaries.push(500);
    RootHeader {
        number,
        session: 7,
        front,
        records: 8,
        boundaries,
        parts: 3,
        buckets: 5,
    }
}

/// The root fields of a page of a file of this shape, where all is lawful.
fn lawful_fields(page: &[u8; PAGE_BYTES], shape: Shape, header: u8) -> Option<RootHeader> {
    let Some(geometry) = Geometry::new(shape) else {
        return None;
    };
    if header > 1 {
        return None;
    }
    decode_fields(page, &geometry, header)
}

/// The bytes of that page's shape that can change by 1 and be those of another shape.
const OTHER_SHAPES: [usize; 8] = [10, 13, 18, 19, 22, 23, 26, 29];

#[test]
fn a_header_is_laid_out(rt: HostRuntime) -> Result<(), Fail> {
    spelling_law();
    let geometry = Geometry::new(SHAPE).ok_or("the shape is lawful")?;
    let mut page = [9; PAGE_BYTES];
    encode_header(&geometry, &mut page);
    let mut expected = [0; PAGE_BYTES];
    expected[..10].copy_from_slice(&[0x47, 0x52, 0x49, 0x44, 0x46, 0x49, 0x4c, 0x45, 0, 1]);
    expected[10..16].copy_from_slice(&[2, 0, 0, 3, 0, 0]);
    expected[16..24].copy_from_slice(&[0, 0, 0, 64, 0, 0, 0, 8]);
    expected[24..32].copy_from_slice(&[0, 0, 3, 0xe8, 0, 0x0f, 0x42, 0x40]);
    assert!(rt; page == expected);
    assert!(rt; decode_shape(&page) == Some(geometry));
    assert!(rt; !is_open(&page));
    for i in 0..64 {
        let mut other = page;
        other[i] ^= 1;
        assert!(rt; decode_shape(&other) != Some(geometry));
        assert_eq!(rt; decode_shape(&other).is_none(), !OTHER_SHAPES.contains(&i));
    }
    Ok(())
}

/// The header page with the fields of a root, by hand.
fn root_page() -> [u8; PAGE_BYTES] {
    let mut page = [0; PAGE_BYTES];
    page[78..80].copy_from_slice(&[1, 2]);
    page[87] = 7;
    page[93] = 1;
    page[103] = 8;
    page[107] = 3;
    page[110..112].copy_from_slice(&[1, 0xf4]);
    page[123] = 3;
    page[127] = 5;
    page
}

#[test]
fn root_fields_are_laid_out(rt: HostRuntime) -> Result<(), Fail> {
    let mut page = root_page();
    let mut bytes = [9; 56];
    encode_fields(&fields(258, 65536), &mut bytes);
    assert!(rt; bytes[..] == page[72..128]);
    assert_eq!(rt; root_number(&page), 258);
    assert!(rt; lawful_fields(&page, SHAPE, 0) == Some(fields(258, 65536)));
    assert!(rt; lawful_fields(&page, SHAPE, 1) == None);
    page[64] = 1;
    assert!(rt; is_open(&page));
    page[64] = 255;
    assert!(rt; !is_open(&page));
    Ok(())
}

/// What makes the fields of a root unlawful: a byte of its page, and its value.
const UNLAWFUL: [(u8, u8); 13] = [
    (79, 3),
    (72, 0x80),
    (80, 0x80),
    (88, 0x80),
    (103, 16),
    (96, 1),
    (106, 4),
    (115, 1),
    (119, 1),
    (123, 2),
    (123, 4),
    (127, 0),
    (127, 64),
];

/// The header page with that root, but for the last number and the last front that a root has.
fn last_page() -> [u8; PAGE_BYTES] {
    let mut page = root_page();
    page[72] = 0x80;
    page[78] = 0;
    page[79] = 0;
    page[88..96].copy_from_slice(&[0x7f, 255, 255, 255, 255, 255, 255, 255]);
    page
}

#[test]
fn unlawful_fields_are_refused(rt: HostRuntime) -> Result<(), Fail> {
    for (i, byte) in UNLAWFUL {
        let mut page = root_page();
        page[i as usize] = byte;
        assert!(rt; lawful_fields(&page, SHAPE, 0) == None);
    }
    let page = last_page();
    let last = fields(1 << 63, (1 << 63) - 1);
    assert!(rt; lawful_fields(&page, SHAPE, 0) == Some(last));
    Ok(())
}

#[test]
fn a_directory_has_no_more_cells_than_the_shape(rt: HostRuntime) -> Result<(), Fail> {
    let page = root_page();
    let mut shape = SHAPE;
    shape.cells = 4 * 501;
    assert!(rt; lawful_fields(&page, shape, 0) == Some(fields(258, 65536)));
    shape.cells = 4 * 501 - 1;
    assert!(rt; lawful_fields(&page, shape, 0) == None);
    Ok(())
}

#[test]
fn pages_of_a_table_area_are_laid_out(rt: HostRuntime) -> Result<(), Fail> {
    let mut expected = [0; PAGE_BYTES];
    expected[..12].copy_from_slice(&[0x47, 0x46, 0x53, 0x31, 0, 0, 0, 3, 0, 0, 0, 2]);
    expected[16..24].copy_from_slice(&[1, 2, 3, 4, 5, 6, 7, 8]);
    expected[96..112].copy_from_slice(&[0, 0, 0, 0, 0, 0, 0, 5, 255, 0, 0, 0, 0, 0, 0, 6]);
    let mut page = [9; PAGE_BYTES];
    encode_scale(0x0102030405060708, 3, &[5, 0xff00000000000006], &mut page);
    assert!(rt; page == expected);
    assert_eq!(rt; boundary_at(&page, 1), 0xff00000000000006);
    for i in 0..PAGE_BYTES {
        let mut other = page;
        other[i] ^= 1;
        assert_eq!(rt;
            is_scale_page(&other, 0x0102030405060708, 3, 2),
            96 <= i && i < 112
        );
    }
    Ok(())
}

#[test]
fn data_pages_are_laid_out(rt: HostRuntime) -> Result<(), Fail> {
    let mut expected = [0; PAGE_BYTES];
    expected[..12].copy_from_slice(&[0x47, 0x46, 0x4c, 0x31, 0, 0, 0, 8, 0, 0, 0, 2]);
    expected[23] = 9;
    expected[96..104].copy_from_slice(&[0, 0, 0, 5, 255, 255, 255, 255]);
    let mut page = [9; PAGE_BYTES];
    encode_list(9, 8, &[5, u32::MAX], &mut page);
    assert!(rt; page == expected);
    assert!(rt; is_list_page(&page, 9, 8, 2));
    assert!(rt; !is_table_page(&page, 9, 8, 2));
    expected[2] = 0x54;
    encode_table(9, 8, &[5, u32::MAX], &mut page);
    assert!(rt; page == expected);
    assert!(rt; is_table_page(&page, 9, 8, 2));
    assert!(rt; !is_table_page(&page, 9, 8, 1));
    assert_eq!(rt; entry_at(&page, 1), u32::MAX);
    Ok(())
}
