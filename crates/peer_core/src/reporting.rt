//! What a peer holds, as it is printed.
ghost use Rattle.std.specs.Prelude.{◌≡◌, map, IfOk};
ghost use Rattle.peer_model.specs.View.{row_of};

use gd_variant::OutOfMemory;
use headless_tree::Tree;
use scene_model::Report;
use sqlite_items::Items;
use std::alloc::Global;

/// The peers that are up, and every node with its values.
pub fn report_with(alloc: Global, up: &[i32], tree: &Tree) -> Result<Report, OutOfMemory>
    ensures { IfOk result (λ r. r ≡ record { peers = up.now; rows = map row_of tree.now.nodes }) }
{
    Ok(Report {
        peers: Items::from_slice(alloc, up)?,
        rows: tree.rows(alloc)?,
    })
}
