ghost use Rattle.std.specs.Prelude.{◌≡◌, ◌==◌, ◌≤◌, ◌<◌, ◌^◌, true, false, length, map, sum, option_map, slice_get, slice_index_or};
ghost use Rattle.std.specs.List.{list_any};
ghost use Rattle.std.specs.Option.{option_copied};
ghost use Rattle.ev_types.specs.Hosts.{HostRowParts};
ghost use Rattle.ev_types.specs.SameHosts.{rows_same};
ghost use Rattle.ev_types.specs.declared.limits.TheConstants.{ROW_LIMIT};
ghost use Rattle.ev_model.specs.Choice.{place_above, weight_at};
ghost use Rattle.ev_hosts.specs.Chosen.{chosen_by, lowest_of, lowest_with, SkipsUnmarked};

use crate::marks::Marks;
use ev_types::{Host, HostRow};

/// The lowest priority of the rows that are marked, if there is one.
/// No priority is lower than 0, so a row of 0 ends the walk.
pub(crate) fn lowest_priority(rows: &[HostRow], marks: &Marks) -> Option<u8>
    requires { length marks.now ≡ length rows.now }
    ensures { result ≡ lowest_of (chosen_by marks.now rows.now) }
{
    let mut lowest = None;
    for place in (0..rows.len()).rev() {
        if !marks.get(place) {
            continue;
        }
        let priority = lower(&rows[place], lowest);
        if priority == 0 {
            return Some(0);
        }
        lowest = Some(priority);
    }
    lowest
}

// The priority of a row, or a lower one.
fn lower(row: &HostRow, lowest: Option<u8>) -> u8
    ensures { result ≡ lowest_with row.now.priority lowest }
{
    match lowest {
        Some(lowest) => row.priority.min(lowest),
        None => row.priority,
    }
}

// The weight of a row counts where its priority is this one.
fn weight_at(priority: u8, row: &HostRow) -> u32
    ensures weight { result ≡ weight_at priority row.now }
    ensures some { (row.now.priority == priority) ≡ true → 1 ≤ result }
{
    if row.priority == priority {
        row.weight
    } else {
        0
    }
}

/// What the weights of this priority add up to, of the rows that are marked.
pub(crate) fn weight_sum(rows: &[HostRow], marks: &Marks, priority: u8) -> u64
    requires marked { length marks.now ≡ length rows.now }
    requires few { length rows.now < ROW_LIMIT }
    ensures sum { result ≡ sum (map (weight_at priority) (chosen_by marks.now rows.now)) }
    ensures some { list_any (λ (r : HostRowParts). r.priority == priority) (chosen_by marks.now rows.now) ≡ true → 1 ≤ result }
{
    let mut sum: u64 = 0;
    for place in (0..rows.len()).rev() {
        if marks.get(place) {
            sum += weight_at(priority, &rows[place]) as u64;
        }
    }
    sum
}

/// The first place where the weights of this priority up to it, and its own, sum to more than n,
/// among the rows that are marked.
pub(crate) fn place_above(rows: &[HostRow], marks: &Marks, priority: u8, n: u64) -> Option<u32>
    requires marked { length marks.now ≡ length rows.now }
    requires few { length rows.now < ROW_LIMIT }
    requires fits { sum (map (weight_at priority) (chosen_by marks.now rows.now)) < 2 ^ 64 }
    ensures { result ≡ place_above n (map (weight_at priority) (chosen_by marks.now rows.now)) }
{
    let mut sum: u64 = 0;
    let mut chosen: u32 = 0;
    for place in 0..rows.len() {
        if !marks.get(place) {
            continue;
        }
        sum += weight_at(priority, &rows[place]) as u64;
        if n < sum {
            return Some(chosen);
        }
        chosen += 1;
    }
    None
}

/// The host at a place among the rows that are marked.
pub(crate) fn host_at<'a>(rows: &'a [HostRow], marks: &Marks, place: u32) -> Option<&'a Host>
    requires { length marks.now ≡ length rows.now }
    ensures { option_copied result ≡ option_map (λ (r : HostRowParts). r.host) (slice_get (chosen_by marks.now rows.now) place) }
{
    let mut left = place;
    for at in 0..rows.len() {
        if !marks.get(at) {
            continue;
        }
        let row = &rows[at];
        if left == 0 {
            return Some(&row.host);
        }
        left -= 1;
    }
    None
}

// The first place from here on that is marked, or how many there are.
fn next_marked(marks: &Marks, from: usize) -> usize
    requires { from ≤ length marks.now }
    ensures within { result ≤ length marks.now }
    ensures marked { result < length marks.now → slice_index_or marks.now result false ≡ true }
    ensures skips { SkipsUnmarked marks.now from result }
{
    for place in from..marks.len() {
        if marks.get(place) {
            return place;
        }
    }
    marks.len()
}

/// Whether the marked rows of both are the same. Where they differ in number, no row is looked at.
pub(crate) fn are_same(
    rows: &[HostRow],
    marks: &Marks,
    other_rows: &[HostRow],
    other_marks: &Marks,
) -> bool
    requires marked { length marks.now ≡ length rows.now }
    requires other_marked { length other_marks.now ≡ length other_rows.now }
    ensures { result ≡ rows_same (chosen_by marks.now rows.now) (chosen_by other_marks.now other_rows.now) }
{
    if marks.count() != other_marks.count() {
        return false;
    }
    let mut other = 0;
    for place in 0..rows.len() {
        if !marks.get(place) {
            continue;
        }
        let row = &rows[place];
        other = next_marked(other_marks, other);
        if other == other_rows.len() {
            return false;
        }
        if *row != other_rows[other] {
            return false;
        }
        other += 1;
    }
    true
}
