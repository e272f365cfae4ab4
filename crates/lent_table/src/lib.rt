#![tactic(auto)]

ghost use Rattle.std.specs.Prelude.{◌≡◌, ◌≤◌, take, length, position, ◌==◌};
ghost use Rattle.complex.specs.Sound.{cells_most};
ghost use Rattle.store.specs.Index.{row_of};
ghost use Rattle.sound.specs.Rows.{is_vertex_in};
ghost use Rattle.lent_table.specs.Table.{table_places, Table};

const PLACES: usize = 1024;

const VERTEX: u32 = 0;

// The length of a table: what its type says, as a fact.
pub fn table_long(table: &[u8; 1024]) -> usize
    ensures { length table.now ≡ table_places }
{
    let s: &[u8] = table;
    s.len()
}

// For each remainder of an id the first row that has it, written from the last row to the first.
pub fn fill(table: &mut [u8; 1024], ids: &[u32; 256], n: usize)
    requires { n ≤ cells_most }
    ensures { Table n table.new ids.now }
{
    lengths::rows_long(ids);
    table_long(table);
    for i in (0..n).rev() {
        let at = store::wide(ids[i]) % PLACES;
        table[at] = i as u8;
    }
}

// The first row of an id, if one has it, looked for one row after another.
fn search(ids: &[u32], id: u32) -> Option<usize>
    ensures { result ≡ position (λ x. x == id) ids.now }
{
    ids.iter().position(|&x| x == id)
}

// The first row of an id, or n: the one that the table has for it, or else searched.
pub fn row_of(table: &[u8; 1024], ids: &[u32; 256], n: usize, id: u32) -> usize
    requires { Table n table.now ids.now }
    ensures { result ≡ row_of id (take n ids.now) }
{
    let row = rows_halfedge::row_in(table[store::wide(id) % PLACES]);
    if row < n {
        if ids[row] == id {
            return row;
        }
    }
    search(&ids[..n], id).unwrap_or(n)
}

// Whether the id v is a vertex's.
pub fn is_vertex(table: &[u8; 1024], ids: &[u32; 256], kinds: &[u32; 256], n: usize, v: u32) -> bool
    requires table { Table n table.now ids.now }
    requires kinds_len { length kinds.now ≡ cells_most }
    ensures { result ≡ is_vertex_in (take n ids.now) (take n kinds.now) v }
{
    let row = row_of(table, ids, n, v);
    if row < n {
        return kinds[row] == VERTEX;
    }
    false
}
