// What the records of a trace do over a lent pool, and all that a replay prints (02 §2).
#![tactic(auto)]

ghost use Rattle.std.specs.Prelude.{◌≡◌, ◌+◌, ◌≤◌, leb, length};
ghost use Rattle.io.specs.Counts.{IsPrefixLen};
ghost use Rattle.mem.specs.Lists.{choose};
ghost use Rattle.mem.specs.Bytes.{put};
ghost use Rattle.classes.specs.Classes.{row_bytes};
ghost use Rattle.model.specs.Calls.{kept_in};
ghost use Rattle.trace.specs.Trace.{Within, operation_of};
ghost use Rattle.trace.specs.Replay.{performed};
ghost use Rattle.line_text.specs.Lines.{answer_of, Short};
ghost use Rattle.player.specs.Printed.{printed, played_text};

use line_text::Said;
use model::Totals;
use trace::{Op, Step};

// Room for all lines of a trace: a record has three bytes or more, and its line at most 45.
pub const TEXT: usize = 1048576;

// Stores bytes in the arena, where they end inside it. The sum of offset and count is not made: it could wrap.
fn store(arena: &mut [u8], offset: usize, bytes: &[u8]) -> bool
    ensures value { result ≡ leb (offset + length bytes.now) (length arena.old) }
    ensures arena_after { arena.new ≡ choose result (put offset bytes.now arena.old) arena.old }
{
    let len = arena.len();
    let n = bytes.len();
    if len < n {
        return false;
    }
    if len - n < offset {
        return false;
    }
    mem::copy_in(arena, offset, bytes);
    true
}

// What a record does. The bytes of a store are lent from the trace.
fn perform(arena: &mut [u8], room: &mut [u8], t: &mut Totals, trace: &[u8], op: Op) -> Said
    requires { Within op (length trace.now) }
    ensures short { Short result }
    ensures does { record { tells = answer_of result; arena = arena.new; kept = kept_in room.new t.new }
        ≡ performed row_bytes arena.old (kept_in room.old t.old) (operation_of trace.now op) }
{
    match op {
        Op::Grant(n) => Said::One(pool::grant(arena, room, t, n)),
        Op::Release(handle) => Said::One(pool::release(arena, room, t, handle)),
        Op::ResizeInPlace(handle, n) => Said::One(resizing::resize_in_place(
            arena, room, t, handle, n,
        )),
        Op::Measure(handle) => Said::One(pool::measure(arena, room, t, handle)),
        Op::Store { offset, from, to } => {
            if store(arena, offset, &trace[from..to]) {
                Said::One(Ok(0))
            } else {
                Said::Bad
            }
        }
        Op::Report => Said::Six(pool::report(arena, room, t)),
        Op::Move(handle, n) => Said::One(resizing::move_block(arena, room, t, handle, n)),
    }
}

// Performs the records behind the version byte, one after the other, and writes their lines.
fn play(arena: &mut [u8], room: &mut [u8], t: &mut Totals, trace: &[u8], out: &mut [u8]) -> usize
    requires { (1 ≤ length trace.now) × (length trace.now ≤ 65535) × (1048576 ≤ length out.old) }
    ensures value { result ≡ length (played_text arena.old (kept_in room.old t.old) trace.now) }
    ensures out_after { out.new ≡ put 0 (played_text arena.old (kept_in room.old t.old) trace.now) out.old }
    ensures small { result ≤ 1048576 }
{
    let mut at = 1;
    let mut count = 1;
    let mut end = 0;
    loop {
        match trace::read(trace, at) {
            Step::Record(op, next) => {
                let told = perform(arena, room, t, trace, op);
                end = line_text::put_line(out, end, count, told);
                if line_text::is_bad(told) {
                    return end;
                }
                at = next;
                count += 1;
            }
            Step::Bad => return line_text::put_bad(out, end, count),
            Step::End => return end,
        }
    }
}

// Replays a trace over a pool that is set up first: writes all that is to be printed, and gives its length.
pub fn replay(
    arena: &mut [u8],
    room: &mut [u8],
    t: Totals,
    trace: &[u8],
    out: &mut [u8; TEXT],
) -> usize
    ensures value { result ≡ length (printed arena.old (kept_in room.old t) trace.now) }
    ensures out_after { out.new ≡ put 0 (printed arena.old (kept_in room.old t) trace.now) out.old }
    ensures prefix_len { IsPrefixLen result out.new }
{
    if !trace::readable(trace) {
        return line_text::put_bad(out, 0, 0);
    }
    let mut kept = t;
    let _ = pool::set_up(arena, room, &mut kept);
    play(arena, room, &mut kept, trace, out)
}
