// Which numbers have a code, and the rows of codes.
use crate::telling::{Broken, decoded, digits_of, holds, same};
use cauchy_code::Code;
use std::alloc::Global;

// How many rows give a block back, how many rows there are, and whether there is such a code.
const NUMBERS: &[(u8, u8, bool)] = &[
    (3, 2, false),
    (0, 1, false),
    (33, 64, false),
    (1, 65, false),
    (32, 64, true),
    (1, 1, true),
];

// The bytes of a block, and of each of 16 parts.
const PART_LENGTHS: &[(usize, usize)] = &[(8192, 512), (8193, 513), (0, 0), (54, 4)];

pub fn code_of(systematic: bool, m: u8, n: u8) -> Result<Code, Broken> {
    let code = if systematic {
        Code::systematic(m, n)
    } else {
        Code::new(m, n)
    };
    match code {
        Some(code) => Ok(code),
        None => Err(Broken::Unfit),
    }
}

fn part_length(size: usize) -> Option<usize> {
    match Code::systematic(16, 32) {
        Some(code) => Some(code.part_len(size)),
        None => None,
    }
}

fn is_16_of_32(code: Option<Code>, systematic: bool) -> bool {
    match code {
        Some(code) => code.m() == 16 && code.n() == 32 && code.is_systematic() == systematic,
        None => false,
    }
}

#[test]
fn numbers_of_codes(rt: HostRuntime) {
    for (m, n, is_code) in NUMBERS {
        holds(
            &rt,
            Code::new(*m, *n).is_some() == *is_code,
            "a row of codes",
        );
        holds(
            &rt,
            Code::systematic(*m, *n).is_some() == *is_code,
            "a row of codes",
        );
    }
    for (size, length) in PART_LENGTHS {
        holds(&rt, part_length(*size) == Some(*length), "a row of lengths");
    }
}

#[test]
fn kinds_of_codes(rt: HostRuntime) {
    holds(
        &rt,
        is_16_of_32(Code::systematic(16, 32), true),
        "systematic",
    );
    holds(&rt, is_16_of_32(Code::new(16, 32), false), "another one");
}

// Whether the code is systematic, its numbers, the bytes of the block, and the first and the last byte of
// each row. The byte of the block at j is j * j + 7 * j + 3, where there are 100.
const ROWS: &[(bool, u8, u8, &str, &str)] = &[
    (false, 2, 3, "0102", "7addf5 7addf5"),
    (true, 2, 3, "0102", "0102f5 0102f5"),
    (false, 1, 4, "01", "47a77aba 47a77aba"),
    (false, 1, 1, "01", "01 01"),
    (
        false,
        3,
        11,
        "",
        "4da4029e09b63015ca35f7 dee58020f51918fa46d741",
    ),
    (
        true,
        3,
        11,
        "",
        "0375ef9e09b63015ca35f7 2b610020f51918fa46d741",
    ),
];

fn block_of(alloc: Global, digits: &str) -> Result<Vec<u8>, Broken> {
    let mut block = decoded(alloc, digits)?;
    if block.is_empty() {
        for j in 0..100u32 {
            block.push(((j * j + 7 * j + 3) % 256) as u8)?;
        }
    }
    Ok(block)
}

fn rows_of(
    systematic: bool,
    m: u8,
    n: u8,
    alloc: Global,
    digits: &str,
) -> Result<Vec<Vec<u8>>, Broken> {
    let code = code_of(systematic, m, n)?;
    let block = block_of(alloc, digits)?;
    Ok(code.encode(alloc, block.as_slice())?)
}

fn first_and_last(row: &[u8]) -> Result<(u8, u8), Broken> {
    match (row.first(), row.last()) {
        (Some(first), Some(last)) => Ok((*first, *last)),
        _ => Err(Broken::Unfit),
    }
}

fn firsts(alloc: Global, rows: &[Vec<u8>]) -> Result<String, Broken> {
    let mut bytes = Vec::new(alloc);
    for row in rows {
        bytes.push(first_and_last(row.as_slice())?.0)?;
    }
    digits_of(alloc, bytes.as_slice())
}

fn lasts(alloc: Global, rows: &[Vec<u8>]) -> Result<String, Broken> {
    let mut bytes = Vec::new(alloc);
    for row in rows {
        bytes.push(first_and_last(row.as_slice())?.1)?;
    }
    digits_of(alloc, bytes.as_slice())
}

// The first bytes of the rows and then the last ones, in digits.
fn told_rows(alloc: Global, rows: &[Vec<u8>]) -> Result<String, Broken> {
    let mut text = firsts(alloc, rows)?;
    text.push_str(" ")?;
    let lasts = lasts(alloc, rows)?;
    text.push_str(lasts.as_str())?;
    Ok(text)
}

fn told_block(
    alloc: Global,
    systematic: bool,
    m: u8,
    n: u8,
    digits: &str,
) -> Result<String, Broken> {
    let rows = rows_of(systematic, m, n, alloc, digits)?;
    told_rows(alloc, rows.as_slice())
}

#[test]
fn rows_of_blocks(rt: HostRuntime) {
    for (systematic, m, n, block, text) in ROWS {
        same(
            &rt,
            told_block(rt.alloc(), *systematic, *m, *n, block),
            text,
        );
    }
}

fn row_of(alloc: Global, code: &Code, block: &[u8]) -> Result<String, Broken> {
    if code.n() == 0 {
        return Err(Broken::Unfit);
    }
    let row = code.row(alloc, 0, block)?;
    digits_of(alloc, row.as_slice())
}

// Row 0 of a block.
fn row_0(alloc: Global, systematic: bool, digits: &str) -> Result<String, Broken> {
    let code = code_of(systematic, 2, 3)?;
    let block = decoded(alloc, digits)?;
    row_of(alloc, &code, block.as_slice())
}

#[test]
fn rows_alone(rt: HostRuntime) {
    same(&rt, row_0(rt.alloc(), false, "010203"), "3df5");
    same(&rt, row_0(rt.alloc(), true, "010203"), "0102");
}
