// Whether slots for sizes can be taken one after the other, by notes of the tables: the slots of each class that are not live, and the rows
// that are free. No table is read.
#![tactic(auto)]

ghost use Rattle.std.specs.Prelude.{◌≡◌, true, ℕ, ◌≤◌, ◌<◌, ltb, is_some};
ghost use Rattle.mem.specs.Lists.{every};
ghost use Rattle.classes.specs.Classes.{class_of, size_limit};
ghost use Rattle.model.specs.State.{Pool};
ghost use Rattle.model.specs.Plans.{reserve_all};
ghost use Rattle.serving.specs.Survey.{lowest_run, NotesOf, Serves};

use classes::Row;

// The lowest run of free rows in a map, where 1 stands for a free row.
fn lowest_run(gaps: &[u8], need: usize) -> Option<usize>
    requires { 1 ≤ need }
    ensures { result ≡ lowest_run need 0 gaps.now }
{
    let mut from = 0;
    for (i, gap) in gaps.iter().enumerate() {
        if *gap != 1 {
            from = i + 1;
        }
        if i + 1 - from == need {
            return Some(from);
        }
    }
    None
}

// Whether a slot of class c can be taken, and what is left then: a slot of a group that is there, or of a new one.
fn serve(row: Row, c: usize, spare: &mut [usize], gaps: &mut [u8]) -> bool
    requires notes_of { (P : Pool) × NotesOf row.bytes P spare.old gaps.old }
    requires c_bound { c < 48 }
    ensures { (P : Pool) (n : ℕ) → NotesOf row.bytes P spare.old gaps.old → c ≡ class_of n → n < size_limit
        → Serves row.bytes P n result spare.new gaps.new }
{
    let k = spare[c];
    if 0 < k {
        spare[c] = k - 1;
        return true;
    }
    let need = classes::rows(row, c);
    let Some(i) = lowest_run(gaps, need) else {
        return false;
    };
    mem::clear(gaps, i, i + need);
    spare[c] = classes::slots(c) - 1;
    true
}

// Whether slots for sizes can be taken, one after the other.
pub fn serve_all(row: Row, sizes: &[usize], spare: &mut [usize], gaps: &mut [u8]) -> bool
    requires notes_of { (P : Pool) × NotesOf row.bytes P spare.old gaps.old }
    requires small_sizes { every (λ n. ltb n size_limit) sizes.now ≡ true }
    ensures { (P : Pool) → NotesOf row.bytes P spare.old gaps.old → result ≡ is_some (reserve_all row.bytes P sizes.now) }
{
    let mut last = None;
    for size in sizes {
        let s = classes::with_class(*size, last);
        if !serve(row, s.class, spare, gaps) {
            return false;
        }
        last = Some(s);
    }
    true
}
