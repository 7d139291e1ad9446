//! The calls of a solver as plain loops: 128 coefficients and 32 symbols to a row, 128 rows and one
//! to spare. Nothing here refuses; a memory that is too short is worked on as far as it goes.
use crate::plain::Plain;

const UNKNOWNS: usize = 128;

const SYMBOLS: usize = 32;

// A coefficient of a row, which has one there.
fn at(row: &[u8], unknown: usize) -> u8 {
    row.get(unknown).copied().unwrap_or(0)
}

// The first column where a row is not zero.
fn first_column(row: &[u8]) -> Option<usize> {
    row.iter().position(|c| *c != 0)
}

fn are_zero<S: Plain>(symbols: &[S]) -> bool {
    let mut zero = true;
    for x in symbols {
        zero &= x.number() == 0;
    }
    zero
}

// Adds c times a row.
fn add_row<S: Plain>(to: &mut [u8], to_symbols: &mut [S], c: u8, row: &[u8], row_symbols: &[S]) {
    for (to, x) in to.iter_mut().zip(row) {
        *to ^= S::product(c, *x);
    }
    for (to, x) in to_symbols.iter_mut().zip(row_symbols) {
        *to = to.plus_scaled(c, *x);
    }
}

fn overwrite<T: Copy>(to: &mut [T], value: T) {
    for x in to {
        *x = value;
    }
}

/// Every unknown is zero.
pub(crate) fn write_zero<S: Plain>(coefficients: &mut [u8], symbols: &mut [S]) {
    overwrite(coefficients, 0);
    overwrite(symbols, S::zero());
    for (u, row) in coefficients.chunks_exact_mut(UNKNOWNS).enumerate() {
        if let Some(c) = row.get_mut(u) {
            *c = 1;
        }
    }
}

/// Whether the memory is in kept form.
pub(crate) fn is_kept<S: Plain>(coefficients: &[u8], symbols: &[S]) -> bool {
    // Where a row must be zero: at first in the columns of the unknowns that lead.
    let mut must = [false; 128];
    let rows = coefficients.chunks_exact(UNKNOWNS);
    for ((u, row), must) in rows.enumerate().zip(must.iter_mut()) {
        *must = at(row, u) != 0;
    }
    let mut kept = true;
    let rows = coefficients
        .chunks_exact(UNKNOWNS)
        .zip(symbols.chunks_exact(SYMBOLS));
    for (u, (row, symbols)) in rows.enumerate() {
        let leads = at(row, u) != 0;
        if leads {
            if let Some(own) = must.get_mut(u) {
                *own = false;
            }
            for (c, must) in row.iter().zip(must.iter()) {
                kept &= !*must | (*c == 0);
            }
            kept &= at(row, u) == 1;
        } else {
            for c in row {
                kept &= *c == 0;
            }
            kept &= are_zero(symbols);
        }
        if let Some(own) = must.get_mut(u) {
            *own = true;
        }
    }
    kept
}

// Moves elements up, so that the first ones go.
fn move_up<T: Copy>(rows: &mut [T], by: usize) {
    let by = by.min(rows.len());
    rows.copy_within(by.., 0);
}

/// The oldest unknowns go, and as many new ones come in.
pub(crate) fn move_on<S: Plain>(coefficients: &mut [u8], symbols: &mut [S], count: usize) {
    let staying = UNKNOWNS.saturating_sub(count);
    let own = coefficients.len().min(UNKNOWNS * UNKNOWNS);
    let (rows, _) = coefficients.split_at_mut(own);
    move_up(rows, count.saturating_mul(UNKNOWNS + 1));
    for (u, row) in rows.chunks_exact_mut(UNKNOWNS).enumerate() {
        let kept = if u < staying { staying } else { 0 };
        if let Some(fresh) = row.get_mut(kept..) {
            overwrite(fresh, 0);
        }
    }
    let own = symbols.len().min(UNKNOWNS * SYMBOLS);
    let (rows, _) = symbols.split_at_mut(own);
    move_up(rows, count.saturating_mul(SYMBOLS));
    for row in rows.chunks_exact_mut(SYMBOLS).skip(staying) {
        overwrite(row, S::zero());
    }
}

/// Takes in one equation, which is worked on; answers whether it was no contradiction.
pub(crate) fn take_in<S: Plain>(
    coefficients: &mut [u8],
    symbols: &mut [S],
    equation: &mut [u8],
    right: &mut [S],
) -> bool {
    let rows = coefficients
        .chunks_exact(UNKNOWNS)
        .zip(symbols.chunks_exact(SYMBOLS));
    for (u, (row, row_symbols)) in rows.enumerate() {
        let leads = at(row, u) != 0;
        let c = at(equation, u);
        if leads && c != 0 {
            add_row(equation, right, c, row, row_symbols);
        }
    }
    let Some(pivot) = first_column(equation) else {
        return are_zero(right);
    };
    let c = at(equation, pivot);
    if c != 1 {
        let inverse = S::inverse(c);
        for x in equation.iter_mut() {
            *x = S::product(inverse, *x);
        }
        for x in right.iter_mut() {
            *x = S::zero().plus_scaled(inverse, *x);
        }
    }
    let rows = coefficients
        .chunks_exact_mut(UNKNOWNS)
        .zip(symbols.chunks_exact_mut(SYMBOLS));
    for (u, (row, row_symbols)) in rows.enumerate() {
        let c = at(row, pivot);
        if u == pivot {
            copy(row, equation);
            copy(row_symbols, right);
        } else if c != 0 {
            add_row(row, row_symbols, c, equation, right);
        }
    }
    true
}

/// Copies as far as both go.
pub(crate) fn copy<T: Copy>(to: &mut [T], from: &[T]) {
    for (to, x) in to.iter_mut().zip(from) {
        *to = *x;
    }
}

/// The symbols of an unknown, if they are known.
pub(crate) fn read<'m, S: Plain>(
    coefficients: &[u8],
    symbols: &'m [S],
    unknown: usize,
) -> Option<&'m [S]> {
    let row = coefficients.chunks_exact(UNKNOWNS).nth(unknown)?;
    let behind = row.get(unknown.saturating_add(1)..).unwrap_or(&[]);
    if first_column(row) == Some(unknown) && first_column(behind).is_none() {
        symbols.chunks_exact(SYMBOLS).nth(unknown)
    } else {
        None
    }
}
