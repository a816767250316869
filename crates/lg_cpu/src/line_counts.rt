// Steps counted by lines.

ghost use Rattle.std.specs.Prelude.{◌≡◌, ◌<◌, ◌+◌, ◌-◌, ◌^◌, ◌==◌, ℕ, if◌then◌else◌, length, slice_get, slice_index_or, unwrap_or, Some};
ghost use Rattle.lg_cpu.specs.LineCounts.{table_line};

use lg_base::layout::CODE_BASE;

// Returns the line of a program counter, and the one before where it has none. Below the code the difference wraps, and is greater than any length.
#[inline(always)]
fn line_at(lines: &[u32], pc: u64, before: u32) -> u32
    ensures { result ≡ unwrap_or (table_line lines.now pc) before }
{
    let place = pc.wrapping_sub(CODE_BASE);
    lines.get(place as usize).copied().unwrap_or(before)
}

/// Counts a step at a program counter for its line, which is returned: that of the table, and the one before where it has none. Where there are no numbers
/// nothing is counted.
#[inline(always)]
pub fn count_step(lines: &[u32], pc: u64, before: u32, counts: &mut [u64]) -> u32
    requires lines { (place line : ℕ) → slice_get lines.now place ≡ Some line → line < length counts.old }
    requires before { 0 < length counts.old → before < length counts.old }
    requires room { 0 < length counts.old → (line : ℕ) → slice_index_or counts.old line 0 < 2 ^ 64 - 1 }
    ensures long { length counts.new ≡ length counts.old }
    ensures line { 0 < length counts.old → result ≡ unwrap_or (table_line lines.now pc) before }
    ensures below { 0 < length counts.old → result < length counts.old }
    ensures each { 0 < length counts.old → (line : ℕ)
        → slice_index_or counts.new line 0 ≡ slice_index_or counts.old line 0 + (if result == line then 1 else 0) }
{
    if counts.is_empty() {
        return before;
    }
    let line = line_at(lines, pc, before);
    counts[line as usize] += 1;
    line
}

/// Takes a step of a line back, where there are numbers.
pub fn take_back(counts: &mut [u64], line: u32)
    requires line { 0 < length counts.old → line < length counts.old }
    requires some { 0 < length counts.old → 0 < slice_index_or counts.old line 0 }
    ensures long { length counts.new ≡ length counts.old }
    ensures each { 0 < length counts.old → (l : ℕ)
        → slice_index_or counts.old l 0 ≡ slice_index_or counts.new l 0 + (if line == l then 1 else 0) }
{
    if counts.is_empty() {
        return;
    }
    counts[line as usize] -= 1;
}
