//! Slot pages and gate pages, byte by byte.
ghost use Rattle.std.specs.Prelude.{◌≤◌};

use super::*;
use std::test::*;

/// The bytes of the page of the batch with an update of each kind, of session 5 and at place 9, by hand.
fn expected() -> [u8; 4096] {
    let mut page = [0; 4096];
    page[..6].copy_from_slice(&[0x47, 0x46, 0x4a, 0x31, 0, 5]);
    page[15] = 5;
    page[23] = 9;
    page[96..100].copy_from_slice(&[1, 0, 0, 2]);
    page[119] = 3;
    page[127] = 7;
    page[144..146].copy_from_slice(b"hi");
    page[192..208].copy_from_slice(&[1, 1, 1, 0, 0, 0, 3, 4, 0, 0, 0, 0, 0, 0, 1, 2]);
    page[215] = 1;
    page[216..224].fill(255);
    page[288..304].copy_from_slice(&[1, 2, 1, 40, 0, 0, 3, 4, 0, 0, 0, 0, 0, 0, 1, 2]);
    page[319] = 5;
    page[336..376].fill(255);
    page[384] = 2;
    page[407] = 4;
    page[415] = 4;
    page[480..488].copy_from_slice(&[2, 3, 0, 0, 0, 0, 6, 7]);
    page[503] = 6;
    page[511] = 9;
    page
}

/// Whether a page spells nothing, or not what another page spells.
fn is_other(page: &[u8; 4096], first: &[u8; 4096]) -> bool {
    match decode::<2>(page) {
        Some(batch) => {
            let mut again = [0; 4096];
            encode(&batch, &mut again);
            again != *first
        }
        None => true,
    }
}

#[test]
fn a_batch_goes_both_ways(rt: HostRuntime) -> Result<(), Fail> {
    spelling_law::<2>();
    let batch = of_each_kind(5, 9).ok_or("the data is short")?;
    let first = expected();
    let mut page = [9; 4096];
    encode(&batch, &mut page);
    assert!(rt; page == first);
    assert!(rt; !is_other(&page, &first));
    for i in 0..4096 {
        let mut page = first;
        page[i] ^= 1;
        assert!(rt; is_other(&page, &first));
    }
    Ok(())
}

/// The bytes of a page with so many removes of the key 0, 0, by hand.
fn of_removes(count: u8) -> [u8; 4096]
    requires { count ≤ 20 }
{
    let mut page = [0; 4096];
    page[..4].copy_from_slice(b"GFJ1");
    page[5] = count;
    page[15] = 5;
    page[23] = 9;
    for i in 0..count as usize {
        page[96 + 96 * i] = 2;
    }
    page
}

/// Whether this is the page of a batch of so many updates.
fn is_page_of(page: &[u8; 4096], count: usize) -> bool {
    match decode::<2>(page) {
        Some(batch) => batch.updates.len() == count && !is_other(page, page),
        None => false,
    }
}

#[test]
fn a_batch_has_1_to_16_updates(rt: HostRuntime) -> Result<(), Fail> {
    for count in 0..20 {
        let page = of_removes(count);
        assert_eq!(rt; decode::<2>(&page).is_some(), 1 <= count && count <= 16);
        assert_eq!(rt;
            is_page_of(&page, count as usize),
            1 <= count && count <= 16
        );
    }
    Ok(())
}

/// What makes the page of the batch with an update of each kind unlawful: a byte, and its value.
const UNLAWFUL: [(usize, u8); 23] = [
    // the kind of the page, how many updates, and what is behind the head
    (3, 0x32),
    (5, 0),
    (5, 4),
    (5, 6),
    (5, 17),
    (6, 1),
    (95, 1),
    // the place of the first update: 0, and too great
    (23, 0),
    (16, 0x80),
    // the kind of an update, its note, and how long its data is
    (96, 0),
    (96, 3),
    (97, 4),
    (99, 41),
    // a merge with a put, a cut of attribute 2, and a cut with a remove
    (97, 3),
    (194, 2),
    (385, 1),
    // a plain note that names an attribute, a bucket and a boundary
    (98, 1),
    (103, 1),
    (111, 1),
    // what is behind a key, behind data, behind an update and behind the last one
    (128, 1),
    (146, 1),
    (191, 1),
    (576, 1),
];

#[test]
fn unlawful_bytes_spell_nothing(rt: HostRuntime) -> Result<(), Fail> {
    for (i, byte) in UNLAWFUL {
        let mut page = expected();
        page[i % 4096] = byte;
        assert!(rt; decode::<2>(&page).is_none());
    }
    Ok(())
}

#[test]
fn the_last_place_of_a_batch_is_2_to_the_63_less_16(rt: HostRuntime) -> Result<(), Fail> {
    let mut page = expected();
    page[16..24].copy_from_slice(&[0x7f, 255, 255, 255, 255, 255, 255, 0xf0]);
    assert!(rt; is_page_of(&page, 5));
    page[23] = 0xf1;
    assert!(rt; decode::<2>(&page).is_none());
    Ok(())
}

#[test]
fn a_gate_page_is_laid_out(rt: HostRuntime) -> Result<(), Fail> {
    for (half, other_half, number) in [
        (Half::First, Half::Second, 0),
        (Half::Second, Half::First, 1),
    ] {
        let mut expected = [0; 4096];
        expected[..8].copy_from_slice(&[0x47, 0x46, 0x47, 0x31, 0, 0, 0, number]);
        expected[96..99].copy_from_slice(&[1, 2, 3]);
        let mut page = [9; 4096];
        encode_gates(half, &[1, 2, 3], &mut page);
        assert!(rt; page == expected);
        assert!(rt; !is_gate_page(&page, other_half, 3));
        assert!(rt; !is_gate_page(&page, half, 2));
        for i in 0..4096 {
            let mut other = page;
            other[i] ^= 1;
            assert_eq!(rt; is_gate_page(&other, half, 3), 96 <= i && i < 99);
        }
    }
    Ok(())
}
