ghost use Rattle.std.specs.Prelude.{◌≡◌, ℕ, ◌+◌, ◌-◌, ◌<◌, ◌≤◌, ◌^◌, ◌==◌, ◌≢◌, if◌then◌else◌, IfOk};
ghost use Rattle.indexmap.specs.IndexMap.{spare, get};
ghost use Rattle.ev_ledger.specs.Entries.{HasNoZero, weight, counted};

use crate::open_on::On;
use indexmap::IndexMap;

/// The count of a number. It takes no memory.
pub(crate) fn count_in(counts: &IndexMap<u32, u64>, number: u32) -> u64
    ensures { result ≡ counted counts.now number }
{
    match counts.get(&number) {
        Some(count) => *count,
        None => 0,
    }
}

/// Counts one more of a number, in room that is there.
pub(crate) fn raise(counts: &mut IndexMap<u32, u64>, number: u32)
    requires room { 0 < spare counts.old }
    requires fits { counted counts.old number + 1 < 2 ^ 64 }
    ensures counts { (n : ℕ) → counted counts.new n ≡ counted counts.old n + (if number == n then 1 else 0) }
    ensures none_zero { HasNoZero counts.old → HasNoZero counts.new }
    ensures room { spare counts.old ≤ spare counts.new + 1 }
{
    let count = count_in(counts, number);
    let Ok(_) = counts.insert(number, count + 1) else {
        unreachable!()
    };
}

/// Counts one less of a number; a count of none leaves no entry. It takes no memory.
pub(crate) fn lower(counts: &mut IndexMap<u32, u64>, number: u32)
    requires { 0 < counted counts.old number }
    ensures counts { (n : ℕ) → counted counts.new n + (if number == n then 1 else 0) ≡ counted counts.old n }
    ensures none_zero { HasNoZero counts.old → HasNoZero counts.new }
{
    let count = count_in(counts, number);
    if count == 1 {
        counts.swap_remove(&number);
    } else {
        let Ok(_) = counts.insert(number, count - 1) else {
            unreachable!()
        };
    }
}

/// Counts one more connection on a listener and, where it was forwarded, on a cluster;
/// on both once where they have one number.
pub(crate) fn raise_on(counts: &mut IndexMap<u32, u64>, on: &On)
    requires room { 2 ≤ spare counts.old }
    requires fits { (n : ℕ) → counted counts.old n + 1 < 2 ^ 64 }
    ensures counts { (n : ℕ) → counted counts.new n ≡ counted counts.old n + weight n on.now }
    ensures none_zero { HasNoZero counts.old → HasNoZero counts.new }
{
    let listener = on.listener;
    raise(counts, listener.number());
    match on.cluster {
        Some(cluster) => {
            if cluster.number() != listener.number() {
                raise(counts, cluster.number());
            }
        }
        None => {}
    }
}

/// Counts one less connection on a listener and, where it was forwarded, on a cluster. It takes no memory.
pub(crate) fn lower_on(counts: &mut IndexMap<u32, u64>, on: &On)
    requires { (n : ℕ) → weight n on.now ≤ counted counts.old n }
    ensures counts { (n : ℕ) → counted counts.new n + weight n on.now ≡ counted counts.old n }
    ensures none_zero { HasNoZero counts.old → HasNoZero counts.new }
{
    let listener = on.listener;
    lower(counts, listener.number());
    match on.cluster {
        Some(cluster) => {
            if cluster.number() != listener.number() {
                lower(counts, cluster.number());
            }
        }
        None => {}
    }
}
