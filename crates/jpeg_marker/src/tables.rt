// A segment of tables (ITU-T T.81, B.2.4.2).
ghost use Rattle.std.specs.Prelude.{◌≡◌, ◌≤◌, ◌<◌, ◌+◌, ◌*◌, ◌/◌, ◌%◌, ◌^◌, length, take, sum, IfOk, OnOk};
ghost use Rattle.jpeg_marker.specs.HeaderRefusals.{fault_in};
ghost use Rattle.jpeg_marker.specs.HuffmanTables.{fields_at, tables_after};
ghost use Rattle.jpeg_marker.specs.TableFaults.{table_fault, tables_fault};
ghost use Rattle.jpeg_marker.specs.HeldTables.{tables_kept};

use crate::refusal::HeaderRefusal;
use crate::table::RawTable;

// A table, its class and number, and how many bytes follow the one with these two.
#[derive(Drop)]
struct Entry {
    class: usize,
    number: usize,
    table: RawTable,
    length: usize,
}

/// Parses a segment of tables (DHT), and keeps each at the index of its class and number, four numbers to a
/// class. `body` is what follows the length field, which is at place `at`.
pub(crate) fn read_tables(
    tables: &mut [Option<RawTable>; 8],
    body: &[u8],
    at: usize,
) -> Result<(), HeaderRefusal>
    requires { at + 2 + length body.now < 2 ^ 64 }
    ensures fault { fault_in result ≡ tables_fault at (at + 2) 0 body.now }
    ensures kept { OnOk result (tables.new ≡ tables_kept tables.old (tables_after 0 body.now)) }
{
    let mut place = at + 2;
    let mut rest = body;
    while let [byte, bytes @ ..] = rest {
        let entry = read_table(*byte, bytes, at, place)?;
        tables[4 * entry.class + entry.number] = Some(entry.table);
        place += 1 + entry.length;
        rest = &bytes[entry.length..];
    }
    Ok(())
}

// The table at a place, from its first byte and what follows it.
fn read_table(byte: u8, bytes: &[u8], at: usize, place: usize) -> Result<Entry, HeaderRefusal>
    ensures fault { fault_in result ≡ table_fault at place byte bytes.now }
    ensures class { IfOk result (λ e. (e.class ≡ byte / 16) × (e.class < 2)) }
    ensures number { IfOk result (λ e. (e.number ≡ byte % 16) × (e.number < 4)) }
    ensures table { IfOk result (λ e. e.table ≡ fields_at bytes.now) }
    ensures length { IfOk result
        (λ e. (e.length ≡ 16 + sum (take 16 bytes.now)) × (e.length ≤ length bytes.now)) }
{
    if bytes.len() < 16 {
        return Err(HeaderRefusal::LengthBad { place: at });
    }
    let class = usize::from(byte / 16);
    let number = usize::from(byte % 16);
    if class > 1 || number > 3 {
        return Err(HeaderRefusal::TableBad { place });
    }
    let counts = first_counts(bytes);
    let length = 16 + total(&counts);
    if bytes.len() < length {
        return Err(HeaderRefusal::LengthBad { place: at });
    }
    let Some(table) = RawTable::new(&counts, &bytes[16..length]) else {
        return Err(HeaderRefusal::TableBad { place });
    };
    Ok(Entry {
        class,
        number,
        table,
        length,
    })
}

// The first sixteen bytes.
fn first_counts(bytes: &[u8]) -> [u8; 16]
    requires { 16 ≤ length bytes.now }
    ensures { result ≡ take 16 bytes.now }
{
    let mut counts = [0; 16];
    counts.copy_from_slice(&bytes[..16]);
    counts
}

// How many values there are with these counts.
fn total(counts: &[u8; 16]) -> usize
    ensures value { result ≡ sum counts.now }
    ensures few { result ≤ 4080 }
{
    let mut values = 0;
    for count in counts {
        values += usize::from(*count);
    }
    values
}
