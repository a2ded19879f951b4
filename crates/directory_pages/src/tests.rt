ghost use Rattle.std.specs.Prelude.{◌≤◌, length};

use super::*;
use std::test::*;

/// The cells that the tests write: no two neighbours have one bucket, and each byte of a number is used.
fn numbers() -> [u32; 1000] {
    let mut cells = [0; 1000];
    for i in 0..1000 {
        cells[i] = (i as u32).wrapping_mul(16909061).wrapping_add(4000000000);
    }
    cells
}

/// Whether a page has exactly these cells, by `is_directory_page` and `bucket_at`.
fn holds(page: &[u8; 4096], part: u32, cells: &[u32]) -> bool
    requires some { 1 ≤ length cells.now }
    requires few { length cells.now ≤ 1000 }
{
    for (i, cell) in cells.iter().enumerate() {
        if bucket_at(page, i as u32) != *cell {
            return false;
        }
    }
    is_directory_page(page, part, cells.len() as u32)
}

/// Whether a directory of so many cells is read back from its page, and again after its first, its middle and its last
/// cell were patched.
fn is_kept(part: u32, count: usize) -> bool
    requires some { 1 ≤ count }
    requires few { count ≤ 1000 }
{
    let mut cells = numbers();
    let mut page = [9; 4096];
    encode(part, &cells[..count], &mut page);
    if !holds(&page, part, &cells[..count]) {
        return false;
    }
    let last = count - 1;
    patch(&mut page, &[last as u32, 0, last as u32 / 2, 0], 77);
    cells[0] = 77;
    cells[last / 2] = 77;
    cells[last] = 77;
    holds(&page, part, &cells[..count])
}

/// Whether each part of a directory of so many cells is kept: all but the last have a thousand.
fn is_kept_whole(cells: u32) -> bool
    requires { 1 ≤ cells }
{
    let (last, index) = part_of(cells - 1);
    for part in 0..last {
        if !is_kept(part, 1000) {
            return false;
        }
    }
    is_kept(last, index as usize + 1)
}

#[test]
fn directories_are_kept(rt: HostRuntime) -> Result<(), Fail> {
    for cells in [1, 2, 999, 1000, 1001, 2500] {
        assert!(rt; is_kept_whole(cells));
    }
    Ok(())
}

#[test]
fn a_page_is_laid_out(rt: HostRuntime) -> Result<(), Fail> {
    let mut page = [9; 4096];
    encode(2, &[7, 258], &mut page);
    let mut expected = [0; 4096];
    expected[..12].copy_from_slice(&[0x47, 0x46, 0x44, 0x31, 0, 0, 0, 2, 0, 0, 0, 2]);
    expected[96..104].copy_from_slice(&[0, 0, 0, 7, 0, 0, 1, 2]);
    assert!(rt; page == expected);
    set_bucket(&mut page, 1, 65536);
    expected[101..104].copy_from_slice(&[1, 0, 0]);
    assert!(rt; page == expected);
    assert!(rt; !is_directory_page(&page, 2, 1));
    assert!(rt; !is_directory_page(&page, 2, 3));
    assert!(rt; !is_directory_page(&page, 1, 2));
    Ok(())
}

/// Whether each byte of the page of so many cells is judged: with another byte it is no page of that part with that many
/// cells, unless the byte is a cell's.
fn is_judged(part: u32, count: usize) -> bool
    requires some { 1 ≤ count }
    requires few { count ≤ 1000 }
{
    let mut first = [9; 4096];
    encode(part, &numbers()[..count], &mut first);
    for i in 0..4096 {
        let mut page = first;
        page[i] ^= 1;
        if is_directory_page(&page, part, count as u32) != (96 <= i && i < 96 + 4 * count) {
            return false;
        }
    }
    true
}

#[test]
fn no_byte_is_passed_over(rt: HostRuntime) -> Result<(), Fail> {
    assert!(rt; is_judged(u32::MAX, 600));
    Ok(())
}

#[test]
fn indices_have_parts(rt: HostRuntime) -> Result<(), Fail> {
    spelling_law();
    assert_eq!(rt; part_of(999), (0, 999));
    assert_eq!(rt; part_of(1000), (1, 0));
    assert_eq!(rt; part_of(u32::MAX), (4294967, 295));
    Ok(())
}
