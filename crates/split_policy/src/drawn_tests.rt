//! The drawn buckets, cut by the rule.

ghost use Rattle.std.specs.Prelude.{◌≤◌};

use super::*;
use crate::drawn::DRAWN;
use grid_types::{Cut, Data, Key, Record, Region, Shape};
use linear_scales::Scales;
use std::alloc::{AllocError, Global};
use std::test::*;

/// Numbers in a row, read one by one.
#[derive(Drop)]
struct Numbers<'a> {
    rest: &'a [u64],
}

impl<'a> Numbers<'a> {
    /// The next number, or 0 behind the last.
    fn next(&mut self) -> u64 {
        match self.rest.split_first() {
            Some((first, rest)) => {
                self.rest = rest;
                *first
            }
            None => 0,
        }
    }

    /// The next number of 8 bits.
    fn next_u8(&mut self) -> u8 {
        (self.next() % 256) as u8
    }

    /// The next number of 32 bits.
    fn next_u32(&mut self) -> u32 {
        (self.next() % 4_294_967_296) as u32
    }

    /// The next numbers, one for each attribute.
    fn next_by_attribute<const K: usize>(&mut self) -> [u64; K]
        requires { K ≤ 4 }
    {
        let mut numbers = [0; K];
        for a in 0..K {
            numbers[a] = self.next();
        }
        numbers
    }
}

/// The numbers of a text in which a space stands behind each.
fn numbers_of(alloc: Global, text: &str) -> Result<Vec<u64>, AllocError> {
    let mut numbers = Vec::new(alloc);
    let mut number: u64 = 0;
    for byte in text.as_bytes() {
        if *byte == b' ' {
            numbers.push(number)?;
            number = 0;
        } else {
            number = number
                .wrapping_mul(10)
                .wrapping_add(u64::from(byte.wrapping_sub(b'0')));
        }
    }
    Ok(numbers)
}

/// The scales that are drawn next, without limits.
fn next_scales<const K: usize>(
    alloc: Global,
    numbers: &mut Numbers,
) -> Result<Scales<K>, AllocError>
    requires { K ≤ 4 }
{
    let mut scales = Scales::new(alloc, 1000)?;
    for _i in 0..numbers.next() {
        let a = numbers.next() as usize;
        let v = numbers.next();
        if a < K && 1 <= v {
            let _refined = scales.refine(a, v);
        }
    }
    Ok(scales)
}

/// The records whose keys are drawn next.
fn next_rows<const K: usize>(
    alloc: Global,
    numbers: &mut Numbers,
) -> Result<Vec<Record<K>>, AllocError>
    requires { K ≤ 4 }
{
    let mut rows = Vec::new(alloc);
    for _i in 0..numbers.next() {
        let key = Key {
            numbers: numbers.next_by_attribute(),
        };
        let value = Data::default();
        rows.push(Record { key, value })?;
    }
    Ok(rows)
}

/// The cut that is drawn next.
fn next_cut(numbers: &mut Numbers) -> Option<Cut> {
    if numbers.next() == 0 {
        return None;
    }
    Some(Cut {
        attribute: numbers.next_u8(),
        value: numbers.next(),
        fresh: numbers.next() == 1,
    })
}

/// Whether the bucket that is drawn next is cut as it says.
fn is_cut_so<const K: usize>(alloc: Global, numbers: &mut Numbers) -> Result<bool, AllocError>
    requires { K ≤ 4 }
{
    let shape = Shape {
        k: K as u8,
        capacity: 2,
        pages: 8,
        slots: 1,
        boundaries: numbers.next_u32(),
        cells: numbers.next_u32(),
    };
    let turn = numbers.next_u8();
    let region = Region {
        lo: numbers.next_by_attribute(),
        hi: numbers.next_by_attribute(),
    };
    let scales = next_scales::<K>(alloc, numbers)?;
    let rows = next_rows::<K>(alloc, numbers)?;
    let wanted = next_cut(numbers);
    if MOST_ROWS < rows.len() {
        return Ok(false);
    }
    Ok(Median.cut(&rows, &scales, &region, turn, &shape) == wanted)
}

/// Whether the bucket that is drawn next, of as many attributes as it says, is cut as it says.
fn is_next_cut_so(alloc: Global, numbers: &mut Numbers) -> Result<bool, AllocError> {
    match numbers.next() {
        1 => is_cut_so::<1>(alloc, numbers),
        2 => is_cut_so::<2>(alloc, numbers),
        3 => is_cut_so::<3>(alloc, numbers),
        4 => is_cut_so::<4>(alloc, numbers),
        _ => Ok(false),
    }
}

#[test]
fn drawn_buckets_are_cut_as_the_rules_say(rt: HostRuntime) -> Result<(), Fail> {
    let alloc = rt.alloc();
    let list = numbers_of(alloc, DRAWN)?;
    let mut numbers = Numbers { rest: &list };
    for _bucket in 0..200 {
        assert!(rt; is_next_cut_so(alloc, &mut numbers)?);
    }
    assert!(rt; numbers.rest.is_empty());
    Ok(())
}
