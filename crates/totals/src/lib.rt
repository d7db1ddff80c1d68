// The six totals, brought up to date by a change of one group: it is made, a slot is taken, given back or gets another size, the group is
// dropped. Nothing is counted again.
#![tactic(auto)]

ghost use Rattle.std.specs.Prelude.{◌≡◌};
ghost use Rattle.model.specs.declared.Totals.{Totals};
ghost use Rattle.totals.specs.Changes.{Small, Makes, Takes, Gives, Drops, Sizes};

use model::Totals;

// The lent record is brought up to date: the one function that writes it.
pub fn record(t: &mut Totals, next: Totals)
    ensures { t.new ≡ next }
{
    *t = next;
}

// A group is made of so many free rows, with so many slots, all ready.
pub fn made(t: &mut Totals, rows: usize, slots: usize)
    requires { (s : Totals) × Makes rows slots t.old s × Small s }
    ensures { (s : Totals) → Makes rows slots t.old s → t.new ≡ s }
{
    let next = Totals {
        held: t.held + rows,
        free: t.free - rows,
        ready: t.ready + slots,
        ..*t
    };
    record(t, next);
}

// A ready slot is taken for n bytes, after so many waiting ones became ready.
pub fn taken(t: &mut Totals, n: usize, refilled: usize)
    requires { (s : Totals) × Takes n refilled t.old s × Small s }
    ensures { (s : Totals) → Takes n refilled t.old s → t.new ≡ s }
{
    let next = Totals {
        blocks: t.blocks + 1,
        bytes: t.bytes + n,
        ready: t.ready + refilled - 1,
        waiting: t.waiting - refilled,
        ..*t
    };
    record(t, next);
}

// The slot of a block of n bytes is given back, and waits.
pub fn given(t: &mut Totals, n: usize)
    requires { (s : Totals) × Gives n t.old s × Small s }
    ensures { (s : Totals) → Gives n t.old s → t.new ≡ s }
{
    let next = Totals {
        blocks: t.blocks - 1,
        bytes: t.bytes - n,
        waiting: t.waiting + 1,
        ..*t
    };
    record(t, next);
}

// A group of so many rows goes with its last block, of n bytes; so many of its slots were ready, and so many waiting.
pub fn dropped(t: &mut Totals, n: usize, rows: usize, ready: usize, waiting: usize)
    requires { (s : Totals) × Drops n rows ready waiting t.old s × Small s }
    ensures { (s : Totals) → Drops n rows ready waiting t.old s → t.new ≡ s }
{
    let next = Totals {
        blocks: t.blocks - 1,
        bytes: t.bytes - n,
        held: t.held - rows,
        free: t.free + rows,
        ready: t.ready - ready,
        waiting: t.waiting - waiting,
    };
    record(t, next);
}

// A block of so many bytes gets n.
pub fn sized(t: &mut Totals, from: usize, n: usize)
    requires { (s : Totals) × Sizes from n t.old s × Small s }
    ensures { (s : Totals) → Sizes from n t.old s → t.new ≡ s }
{
    let next = Totals {
        bytes: t.bytes - from + n,
        ..*t
    };
    record(t, next);
}
