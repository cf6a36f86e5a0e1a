//! The lines of a report.
ghost use Rattle.std.specs.Prelude.{◌≡◌, ◌++◌, flat_map, IfOk, OnOk};
ghost use Rattle.session_text.specs.Reports.{node_line, peer_line, report_lines, row_lines, value_line};

use crate::cells::list;
use crate::line::{begin, end, int, nat, text};
use crate::values::value;
use gd_variant::{Bytes, OutOfMemory};
use scene_model::{Prop, Report, Row};
use std::alloc::Global;

/// The peers that are up.
fn push_peers(alloc: Global, out: &mut Vec<u8>, peer: i32, peers: &[i32]) -> Result<(), OutOfMemory>
    ensures { OnOk result (out.new.items ≡ out.old.items ++ peer_line peer peers.now) }
{
    let mut line = begin(alloc, out)?;
    text("peer", &mut line)?;
    int(peer as i64, &mut line)?;
    list(alloc, peers, &mut line)?;
    end(line, out)
}

/// A property of a node.
fn push_value(
    alloc: Global,
    out: &mut Vec<u8>,
    peer: i32,
    path: &str,
    prop: &Prop,
) -> Result<(), OutOfMemory>
    ensures { OnOk result (out.new.items ≡ out.old.items ++ value_line peer path.now prop.now) }
{
    let mut line = begin(alloc, out)?;
    text("value", &mut line)?;
    int(peer as i64, &mut line)?;
    text(path, &mut line)?;
    text(prop.name.as_str(), &mut line)?;
    value(&prop.value, alloc, &mut line)?;
    end(line, out)
}

/// A node.
fn push_node(alloc: Global, out: &mut Vec<u8>, peer: i32, row: &Row) -> Result<(), OutOfMemory>
    ensures { OnOk result (out.new.items ≡ out.old.items ++ node_line peer row.now) }
{
    let mut line = begin(alloc, out)?;
    text("node", &mut line)?;
    int(peer as i64, &mut line)?;
    int(row.auth as i64, &mut line)?;
    nat(row.num as u64, &mut line)?;
    text(row.path.as_str(), &mut line)?;
    end(line, out)
}

/// The properties of a node.
fn push_values(
    alloc: Global,
    out: &mut Vec<u8>,
    peer: i32,
    path: &str,
    props: &[Prop],
) -> Result<(), OutOfMemory>
    ensures { OnOk result (out.new.items ≡ out.old.items ++ flat_map (value_line peer path.now) props.now) }
{
    for prop in props {
        push_value(alloc, out, peer, path, prop)?;
    }
    Ok(())
}

/// A node and its properties.
fn push_row(alloc: Global, out: &mut Vec<u8>, peer: i32, row: &Row) -> Result<(), OutOfMemory>
    ensures { OnOk result (out.new.items ≡ out.old.items ++ row_lines peer row.now) }
{
    push_node(alloc, out, peer, row)?;
    push_values(alloc, out, peer, row.path.as_str(), row.values.as_slice())
}

/// The nodes with their properties. A node's lines are written into a buffer of their own, which stays
/// small, and are then added.
fn push_rows(alloc: Global, out: &mut Vec<u8>, peer: i32, rows: &[Row]) -> Result<(), OutOfMemory>
    ensures { OnOk result (out.new.items ≡ out.old.items ++ flat_map (row_lines peer) rows.now) }
{
    let mut lines = Vec::new(alloc);
    for row in rows {
        lines.clear();
        push_row(alloc, &mut lines, peer, row)?;
        out.extend_from_slice(lines.as_slice())?;
    }
    Ok(())
}

/// The lines of the report of a peer, each with its line feed.
pub fn report_text(alloc: Global, peer: i32, report: &Report) -> Result<Bytes, OutOfMemory>
    ensures { IfOk result (λ b. b ≡ report_lines peer report.now) }
{
    let mut out = Vec::new(alloc);
    push_peers(alloc, &mut out, peer, report.peers.as_slice())?;
    push_rows(alloc, &mut out, peer, report.rows.as_slice())?;
    Ok(Bytes::from_vec(out))
}
