// Compares the products and inverses of `Byte` with tables that another library made. `data/README.md` says how.
#![tactic(auto)]

ghost use Rattle.std.specs.Prelude.{◌≡◌, ℕ, ◌<◌, length, MatchOption, ◌≢◌, slice_index};
ghost use Rattle.byte_products.specs.Entry.{entry_of};

mod table;

use arithmetic::field::Field;
use byte::Byte;
use std::io::ErrorKind;
use std::{fs, io};
use table::Table;

// The file has the products of all pairs first, and then the inverses of 1 to 255.
const PRODUCTS: usize = 65536;

const INVERSES: usize = 255;

// What a table should have at place `k`.
fn entry(table: Table, k: usize) -> u8
    ensures { result ≡ entry_of table k }
{
    match table {
        Table::Products => {
            let row = Byte::new((k / 256 % 256) as u8);
            let column = Byte::new((k % 256) as u8);
            row.times(column).value()
        }
        Table::Inverses => Byte::new(((k % 256 + 1) % 256) as u8)
            .inverse()
            .map_or(0, Byte::value),
    }
}

// The first place where the table has another entry than it should have.
fn first_wrong(table: Table, entries: &[u8]) -> Option<usize>
    ensures { MatchOption result ((k : ℕ) → k < length entries.now → slice_index entries.now k ≡ entry_of table k) (λ k. slice_index entries.now k ≢ entry_of table k) }
{
    entries
        .iter()
        .enumerate()
        .position(|(k, found)| *found != entry(table, k))
}

fn compare(rt: &HostRuntime, table: Table, entries: &[u8]) -> io::Result<()> {
    if let Some(k) = first_wrong(table, entries) {
        let expected = entry(table, k);
        eprintln!(rt; "{table}: place {k} should have {expected}")?;
        return Err(io::Error::from(ErrorKind::InvalidData));
    }
    let count = entries.len();
    println!(rt; "{table}: all {count} agree")
}

fn main(rt: HostRuntime) -> io::Result<()> {
    let tables = fs::read(&rt, "tables.bin")?;
    let entries = tables.as_slice();
    if entries.len() != PRODUCTS + INVERSES {
        eprintln!(rt; "tables.bin has another length")?;
        return Err(io::Error::from(ErrorKind::InvalidData));
    }
    let (products, inverses) = entries.split_at(PRODUCTS);
    compare(&rt, Table::Products, products)?;
    compare(&rt, Table::Inverses, inverses)
}
