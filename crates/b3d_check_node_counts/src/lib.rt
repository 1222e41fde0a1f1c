// The running counts of the check's walk over the nodes of lent tables: the counts after a node, and whether they leave no row over.
#![tactic(auto)]

ghost use Rattle.std.specs.Prelude.{◌≡◌, [], ◌∷◌, ◌+◌, ◌-◌, ◌*◌, ◌<◌, ◌≤◌, length};
ghost use Rattle.b3d_spec.specs.Tables.{node_width, mesh_width, triangle_set_width, key_list_width};
ghost use Rattle.b3d_check_spec.specs.CellCounts.{mesh_counts, kind_counts, cell_counts};
ghost use Rattle.b3d_check_rows.specs.Rows.{row_at, rows_at};
ghost use Rattle.b3d_check_spec.specs.Rooms.{Limited};
ghost use Rattle.b3d_check_node_counts.specs.Parts.{part_rows, Below, MeshEnds};
ghost use Rattle.b3d_check_node_counts.specs.Ended.{ended};

use b3d_spec::{Counts, MESH_WIDTH, NODE_WIDTH, columns};

// Returns the counts after the mesh that comes after the counts `n`, by its row in `t4` and its triangle sets in `t6`.
fn mesh_counts(n: Counts, all: Counts, t4: &[u32], t6: &[u32]) -> Counts
    requires { MeshEnds n all t4.now t6.now × Limited all × (mesh_width * all.meshes ≤ length t4.now)
        × (triangle_set_width * all.sets ≤ length t6.now) }
    ensures { result ≡ mesh_counts (row_at mesh_width n.meshes t4.now)
        (rows_at triangle_set_width n.sets (all.sets - n.sets) t6.now) n }
{
    let i = n.meshes;
    let o = MESH_WIDTH * i;
    let vertices = b3d_check_rows::cell(t4, o + columns::MESH_VERTICES);
    let sets = b3d_check_rows::cell(t4, o + columns::MESH_TRIANGLE_SETS);
    let triangles = b3d_check_row_runs::end_of(t6, n.sets, sets, n.triangles);
    let mut m = n;
    m.meshes = i + 1;
    m.vertices = n.vertices + vertices;
    m.sets = n.sets + sets;
    m.triangles = triangles;
    m
}

// Returns the counts after the mesh (`kind` 1) or the `count` weights (`kind` 2) of the node that comes after the counts `n`; `n` for any other kind.
fn kind_counts(n: Counts, all: Counts, kind: u32, count: usize, t4: &[u32], t6: &[u32]) -> Counts
    requires below { Below n all × Limited all × (mesh_width * all.meshes ≤ length t4.now) × (triangle_set_width * all.sets ≤ length t6.now) }
    requires below_2 { Below (kind_counts (part_rows all t4.now [] t6.now [] [] [] []) n (kind ∷ 0 ∷ count ∷ [])) all }
    ensures { result ≡ kind_counts (part_rows all t4.now [] t6.now [] [] [] []) n (kind ∷ 0 ∷ count ∷ []) }
{
    if kind == 1 {
        return mesh_counts(n, all, t4, t6);
    }
    if kind == 2 {
        let mut m = n;
        m.weights = n.weights + count;
        return m;
    }
    n
}

// Returns the counts after the node that comes after the counts `n`; no count passes `all`, as for a sound node.
pub fn node_counts(n: Counts, all: Counts, t3: &[u32], t4: &[u32], t6: &[u32], t9: &[u32]) -> Counts
    requires below { Below n all × Limited all × (n.nodes < all.nodes) × (node_width * all.nodes ≤ length t3.now) }
    requires meshes_in_bounds { (mesh_width * all.meshes ≤ length t4.now) × (triangle_set_width * all.sets ≤ length t6.now)
        × (key_list_width * all.lists ≤ length t9.now) }
    requires below_2 { Below (cell_counts (part_rows all t4.now [] t6.now [] [] t9.now []) (row_at node_width n.nodes t3.now) n) all }
    ensures { result ≡ cell_counts (part_rows all t4.now [] t6.now [] [] t9.now [])
        (row_at node_width n.nodes t3.now) n }
{
    let o = NODE_WIDTH * n.nodes;
    let count = b3d_check_rows::cell(t3, o + columns::NODE_COUNT);
    let m = kind_counts(n, all, t3[o + columns::NODE_KIND], count, t4, t6);
    let end = b3d_check_row_runs::lists_of(n.nodes, t9, n.lists, all.lists);
    let keys = b3d_check_row_runs::end_of(t9, n.lists, end - n.lists, n.keys);
    let mut after = m;
    after.nodes = m.nodes + 1;
    after.lists = end;
    after.keys = keys;
    after
}

// Returns whether no row of tables 4 to 10 that `all` counts is left over after the counts `n`.
pub fn ended(n: Counts, all: Counts) -> bool
    ensures { result ≡ ended n all }
{
    let moves = (all.weights <= n.weights) & ((all.lists <= n.lists) & (all.keys <= n.keys));
    let rest = (all.sets <= n.sets) & ((all.triangles <= n.triangles) & moves);
    (all.meshes <= n.meshes) & ((all.vertices <= n.vertices) & rest)
}
