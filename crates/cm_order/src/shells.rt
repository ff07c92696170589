//! A square matrix that grows by one row and one column at a time.

ghost use Rattle.std.specs.Prelude.{◌≡◌, ◌<◌, ◌≤◌, ◌+◌, ◌*◌, ◌^◌, ℕ, ℤ, ◌+ℤ◌, ◌≤ℤ◌, pos, negsuc, length, FitsSigned};
ghost use Rattle.std.specs.Prelude.{if◌then◌else◌, ◌==◌, max, OnOk};
ghost use Rattle.std.specs.Int.{w32, int_min};
ghost use Rattle.cm_order.specs.inner.Shells.{IsProper, extended, lowered, number_at, relaxed, with_edge};
ghost use Rattle.cm_order.specs.inner.Shells as shells;

use cm_model::NoMemory;

/// The place of the difference of `x` and `y`.
#[tactic(auto, unfolding(crate::specs::inner::Shells::place))]
pub fn place(x: usize, y: usize) -> usize
    requires x { x < 2 ^ 31 }
    requires y { y < 2 ^ 31 }
    ensures { result ≡ shells.place x y }
{
    if y <= x { x * x + y } else { y * y + y + 1 + x }
}

/// The most by which `x` can exceed `y`.
pub fn entry(entries: &[i32], x: usize, y: usize) -> i32
    requires x { x < 2 ^ 31 }
    requires y { y < 2 ^ 31 }
    requires within { shells.place x y < length entries.now }
    ensures { result ≡ shells.entry entries.now x y }
{
    entries[place(x, y)]
}

/// Lowers each number from `start` on to `by` more than the other in its place.
fn relax_run(cells: &mut [i32], start: usize, others: &[i32], by: i32)
    requires room { start + length others.now ≤ length cells.old }
    requires fits { (k : ℕ) → k < length others.now → FitsSigned w32 (by +ℤ number_at others.now k) }
    ensures { (p : ℕ) → number_at cells.new p ≡ relaxed cells.old start others.now by (length others.now) p }
{
    'run: for k in 0..others.len() {
        let least = by + others[k];
        cells[start + k] = cells[start + k].min(least);
    }
}

/// Lowers the differences of shell `m` to the sums of the column and the row.
fn relax_shell(cells: &mut [i32], column: &[i32], row: &[i32], m: usize)
    requires shell { m < length column.now }
    requires few { length column.now < 2 ^ 31 }
    requires column { length cells.old ≡ length column.now * length column.now }
    requires row { length column.now ≤ length row.now }
    requires fits { (i j : ℕ) → i < length column.now → j < length column.now
        → FitsSigned w32 (number_at column.now i +ℤ number_at row.now j) }
    ensures { (i j : ℕ) → i < length column.now → j < length column.now
        → shells.entry cells.new i j ≡ (if max i j == m then lowered (shells.entry cells.old) column.now
        row.now i j else shells.entry cells.old i j) }
{
    let start = m * m;
    relax_run(cells, start, &row[..m + 1], column[m]);
    relax_run(cells, start + m + 1, &column[..m], row[m]);
}

/// Lowers each difference to the sum of the column and the row.
fn relax(cells: &mut [i32], column: &[i32], row: &[i32])
    requires few { length column.now < 2 ^ 31 }
    requires column { length cells.old ≡ length column.now * length column.now }
    requires row { length column.now ≤ length row.now }
    requires fits { (i j : ℕ) → i < length column.now → j < length column.now
        → FitsSigned w32 (number_at column.now i +ℤ number_at row.now j) }
    ensures { (i j : ℕ) → i < length column.now → j < length column.now
        → shells.entry cells.new i j ≡ lowered (shells.entry cells.old) column.now row.now i j }
{
    'shells: for m in 0..column.len() {
        relax_shell(cells, column, row, m);
    }
}

/// Puts the differences to `x`, each with `most` added, into the column, and those of `y` into the row.
fn gather(cells: &[i32], column: &mut [i32], row: &mut [i32], x: usize, y: usize, most: i32)
    requires few { length column.old < 2 ^ 31 }
    requires cells { length cells.now ≡ length column.old * length column.old }
    requires row { length column.old ≤ length row.old }
    requires x { x < length column.old }
    requires y { y < length column.old }
    requires fits { (k : ℕ) → k < length column.old → FitsSigned w32 (shells.entry cells.now k x +ℤ most) }
    ensures column { (k : ℕ) → k < length column.old → number_at column.new k ≡ shells.entry cells.now k x +ℤ most }
    ensures row { (k : ℕ) → k < length column.old → number_at row.new k ≡ shells.entry cells.now y k }
{
    'lines: for k in 0..column.len() {
        column[k] = entry(cells, k, x) + most;
        row[k] = entry(cells, y, k);
    }
}

/// Lowers each difference to what it is once `x` exceeds `y` by at most `most`, by one pass.
fn spread(entries: &mut [i32], count: usize, x: usize, y: usize, most: i32)
    requires proper { IsProper count entries.old }
    requires x { x < count }
    requires y { y < count }
    requires low { negsuc 1000000000 ≤ℤ most }
    requires high { most ≤ℤ pos 1000000001 }
    ensures { (i j : ℕ) → i < count → j < count → shells.entry entries.new i j ≡ with_edge (shells.entry entries.old)
        x y most i j }
{
    let (cells, scratch) = entries.split_at_mut(count * count);
    let (column, row) = scratch.split_at_mut(count);
    gather(cells, column, row, x, y, most);
    relax(cells, column, row);
}

/// Lowers each difference to what it is once `x` exceeds `y` by at most `most`.
pub fn add_edge(entries: &mut [i32], count: usize, x: usize, y: usize, most: i32)
    requires proper { IsProper count entries.old }
    requires x { x < count }
    requires y { y < count }
    requires low { negsuc 1000000000 ≤ℤ most }
    requires high { most ≤ℤ pos 1000000001 }
    ensures { (i j : ℕ) → i < count → j < count → shells.entry entries.new i j ≡ with_edge (shells.entry entries.old)
        x y most i j }
{
    if most < entry(entries, x, y) {
        spread(entries, count, x, y, most);
    }
}

/// Writes the shell of one more variable, which is at least `lo` and at most `hi`.
pub fn fill_shell(entries: &mut [i32], count: usize, lo: i32, hi: i32)
    requires proper { IsProper count entries.old }
    requires low { negsuc 999999 ≤ℤ lo }
    requires order { lo ≤ℤ hi }
    requires high { hi ≤ℤ pos 1000000 }
    ensures { (i j : ℕ) → i ≤ count → j ≤ count → shells.entry entries.new i j ≡ extended count
        (shells.entry entries.old) lo hi i j }
{
    let start = count * count;
    'cells: for k in 0..count {
        let above = hi + entry(entries, 0, k);
        let below = entry(entries, k, 0) - lo;
        entries[start + k] = above;
        entries[start + count + 1 + k] = below;
    }
    entries[start + count] = 0;
}

/// Appends zeros.
pub fn append_zeros(entries: &mut Vec<i32>, more: usize) -> Result<(), NoMemory>
    ensures long { OnOk result (length entries.new.items ≡ length entries.old.items + more) }
    ensures longer { length entries.old.items ≤ length entries.new.items }
    ensures kept { (p : ℕ) → number_at entries.new.items p ≡ number_at entries.old.items p }
{
    'zeros: for _ in 0..more {
        entries.push(0)?;
    }
    Ok(())
}
