// A table of two directions by fourteen pools: nested in locals and arguments, flat in the state.
ghost use Rattle.std.specs.Prelude.{◌≡◌, ◌≤◌};
ghost use Rattle.lists.specs.Parts.{part, pad, put};
ghost use Rattle.pools.specs.Rows.{nested, flattened};

// The counts of one direction, one a pool.
pub const ROW: usize = 14;

// The counts of both directions.
pub const TABLE: usize = 2 * ROW;

// Fourteen numbers of a list, from `start` on, with zeros behind its end.
pub fn take_row(list: &[u32], start: usize) -> [u32; ROW]
    ensures { result ≡ pad 14 (part start 14 list.now) }
{
    let mut out = [0u32; ROW];
    let rest = list.get(start..).unwrap_or(&[]);
    let count = rest.len().min(ROW);
    out[..count].copy_from_slice(&rest[..count]);
    out
}

// The two rows of a flat table.
pub fn nest(flat: [u32; TABLE]) -> [[u32; ROW]; 2]
    ensures { result ≡ nested flat }
{
    let (rows, _) = flat.as_chunks::<ROW>();
    [rows[0], rows[1]]
}

// Puts a row in its place in a table, from `start` on.
fn put_row(table: &mut [u32; TABLE], start: usize, row: [u32; ROW])
    requires { start ≤ 14 }
    ensures { table.new ≡ put start row table.old }
{
    for i in 0..ROW {
        table[start + i] = row[i];
    }
}

// Two rows as a flat table.
pub fn flatten(rows: [[u32; ROW]; 2]) -> [u32; TABLE]
    ensures { result ≡ flattened rows }
{
    let mut out = [0u32; TABLE];
    put_row(&mut out, 0, rows[0]);
    put_row(&mut out, ROW, rows[1]);
    out
}
