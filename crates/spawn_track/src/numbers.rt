//! Rows by their numbers.
ghost use Rattle.std.specs.Prelude.{◌≡◌, ◌<◌, ◌≤◌, true, not, filter, length, position, IfSome, nat_eq, nat_lt};
ghost use Rattle.std.specs.List.{prefix_len};
ghost use Rattle.std.specs.Option.{option_copied};
ghost use Rattle.peer_steps.specs.declared.rows.SpawnedRow.{SpawnedRow as RowOf};
ghost use Rattle.peer_steps.specs.Track.{row_with};
ghost use Rattle.spawn_track.specs.Numbers.{rows_rise};

use peer_steps::SpawnedRow;
use sqlite_items::at as item_at;

fn is_before(row: &SpawnedRow, num: u32) -> bool
    ensures { result ≡ nat_lt row.now.num num }
{
    row.num < num
}

fn has_number(row: &SpawnedRow, num: u32) -> bool
    ensures { result ≡ nat_eq row.now.num num }
{
    row.num == num
}

/// How many rows stand before a number, by a binary search.
fn count_before(rows: &[SpawnedRow], num: u32) -> usize
    requires { rows_rise rows.now ≡ true }
    ensures count { result ≡ prefix_len (λ (r : RowOf). nat_lt r.num num) rows.now }
    ensures within { result ≤ length rows.now }
{
    rows.partition_point(|row| is_before(row, num))
}

/// The place of the row of a number.
fn place_of(rows: &[SpawnedRow], num: u32) -> Option<usize>
    requires { rows_rise rows.now ≡ true }
    ensures place { result ≡ position (λ (r : RowOf). nat_eq r.num num) rows.now }
    ensures within { IfSome result (λ i. i < length rows.now) }
{
    let place = count_before(rows, num);
    match item_at(rows, place) {
        Some(row) => {
            if has_number(row, num) {
                Some(place)
            } else {
                None
            }
        }
        None => None,
    }
}

/// The row of a number.
pub fn row_among(rows: &[SpawnedRow], num: u32) -> Option<&SpawnedRow>
    requires { rows_rise rows.now ≡ true }
    ensures { option_copied result ≡ row_with num rows.now }
{
    match place_of(rows, num) {
        Some(place) => item_at(rows, place),
        None => None,
    }
}

fn has_other(row: &SpawnedRow, num: u32) -> bool
    ensures { result ≡ not (nat_eq row.now.num num) }
{
    row.num != num
}

/// Takes the row of a number away.
pub fn drop_row(rows: &mut Vec<SpawnedRow>, num: u32)
    ensures { rows.new.items ≡ filter (λ (r : RowOf). not (nat_eq r.num num)) rows.old.items }
{
    rows.retain(|row| has_other(row, num));
}
