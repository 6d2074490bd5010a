ghost use Rattle.std.specs.Prelude.{◌≡◌, ◌==◌, ℕ, ◌+◌, ◌<◌, ◌≤◌, ◌++◌, ◌∷◌, [], false, cond, length, filter, All, vec_capacity, slice_index};
ghost use Rattle.std.specs.List.{range_with_len};
ghost use Rattle.oci_plan.specs.Doubles.{has};
ghost use Rattle.oci_pool.specs.Board.{is_marked};
ghost use Rattle.oci_pool.specs.Kept.{unit_if, AreDistinctBelow, IsListed, IsUnissued, IsIssuing, Issues};

/// Returns the mark at a number. A number past the end has no mark.
pub(crate) fn is_marked(marks: &[bool], number: u32) -> bool
    ensures { result ≡ is_marked marks.now number }
{
    match marks.get(number as usize) {
        Some(mark) => *mark,
        None => false,
    }
}

/// Lowers by one the count of awaited successors of each of these numbers.
pub(crate) fn lower(list: &[u32], waiting: &mut Vec<usize>)
    requires list { AreDistinctBelow (length waiting.old.items) list.now }
    requires positive { All (λ n. 0 < slice_index waiting.old.items n) list.now }
    ensures len { length waiting.new.items ≡ length waiting.old.items }
    ensures each { (n : ℕ) → n < length waiting.old.items
        → slice_index waiting.new.items n + unit_if (has n list.now) ≡ slice_index
        waiting.old.items n }
{
    for number in list {
        waiting[*number as usize] -= 1;
    }
}

/// Appends a number to the issue list, which does not have it yet.
fn issue_one(issue: &mut Vec<u32>, issued: &mut Vec<bool>, number: u32)
    requires unissued { IsUnissued issue.old.items issued.old.items number }
    requires listed { IsListed issue.old.items (vec_capacity issue.old) issued.old.items }
    ensures { Issues issued.old.items issue.new issued.new.items (issue.old.items ++ number ∷ []) }
{
    issue.push_reserved(number);
    issued[number as usize] = true;
}

/// Issues a number if it waits for no successor.
fn issue_if_ready(issue: &mut Vec<u32>, issued: &mut Vec<bool>, waiting: &Vec<usize>, number: u32)
    requires unissued { IsUnissued issue.old.items issued.old.items number }
    requires issuing { IsIssuing issue.old issued.old.items waiting.now.items }
    ensures { Issues issued.old.items issue.new issued.new.items (issue.old.items ++ cond
        (slice_index waiting.now.items number == 0) (number ∷ []) []) }
{
    if waiting[number as usize] == 0 {
        issue_one(issue, issued, number);
    }
}

/// Issues the numbers of a list that wait for nothing.
pub(crate) fn issue_ready(
    issue: &mut Vec<u32>,
    issued: &mut Vec<bool>,
    waiting: &Vec<usize>,
    list: &[u32],
)
    requires list { AreDistinctBelow (length issued.old.items) list.now }
    requires fresh { All (λ n. has n issue.old.items ≡ false) list.now }
    requires issuing { IsIssuing issue.old issued.old.items waiting.now.items }
    ensures { Issues issued.old.items issue.new issued.new.items (issue.old.items ++ filter
        (λ n. slice_index waiting.now.items n == 0) list.now) }
{
    for number in list {
        issue_if_ready(issue, issued, waiting, *number);
    }
}

/// Issues all numbers without successors, in ascending order.
pub(crate) fn issue_leaves(issue: &mut Vec<u32>, issued: &mut Vec<bool>, waiting: &Vec<usize>)
    requires count { length issued.old.items ≤ 4294967295 }
    requires none { issue.old.items ≡ [] }
    requires issuing { IsIssuing issue.old issued.old.items waiting.now.items }
    ensures { Issues issued.old.items issue.new issued.new.items (filter
        (λ n. slice_index waiting.now.items n == 0) (range_with_len 0 (length waiting.now.items))) }
{
    for number in 0..waiting.len() {
        issue_if_ready(issue, issued, waiting, number as u32);
    }
}
