// Where a grant puts a block in its slot: the displacement, and what becomes of the slot.
#![tactic(auto)]

ghost use Rattle.std.specs.Prelude.{◌≡◌, ◌+◌, ◌<◌, ◌≤◌};
ghost use Rattle.classes.specs.Classes.{slot_bytes};
ghost use Rattle.model.specs.declared.Slot.{Slot};
ghost use Rattle.model.specs.State.{count};
ghost use Rattle.model.specs.Plans.{displaced, grant_slot};

use model::{Alloc, Slot};

fn count_of(x: Slot) -> u8
    ensures { result ≡ count x }
{
    match x {
        Slot::Fresh => 0,
        Slot::Idle {
            ready: _,
            count,
            disp: _,
        } => count,
        Slot::Live(a) => a.count,
    }
}

// The displacement of a block of n bytes in a slot that begins at a byte of the arena: an ordinary block's goes by the slot's use count, an
// aligned block starts at the first boundary.
fn displacement(c: usize, code: u8, n: usize, begin: usize, uses: u8) -> usize
    requires c_bound { (c < 48) × (n + 4 ≤ slot_bytes c) }
    requires code_bound { (code ≤ 9) × (begin < 16777216) }
    ensures { result ≡ displaced c code n begin uses }
{
    if code <= classes::ORDINARY {
        let t = (16 * classes::units(c) - 4 - n) / 16;
        return mem::wide(uses) % (t + 1);
    }
    (classes::round_up(classes::align_of(code), begin) - begin) / 16
}

// What becomes of a slot by a grant of n bytes: its use count goes up by one, 255 becoming 0.
pub fn grant_slot(c: usize, code: u8, n: usize, begin: usize, x: Slot) -> Alloc
    requires c_bound { (c < 48) × (n + 4 ≤ slot_bytes c) }
    requires code_bound { (code ≤ 9) × (begin < 16777216) }
    ensures { Slot.Live result ≡ grant_slot c code n begin x }
{
    let k = count_of(x);
    Alloc {
        count: std::num::wrapping_add_u8(k, 1),
        disp: displacement(c, code, n, begin, k),
        size: n,
        align: code,
    }
}
