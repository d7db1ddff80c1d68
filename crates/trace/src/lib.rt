// The reader of a field trace (02 §2): what stands at a place of the caller's bytes, none of which is copied.
#![tactic(auto)]

ghost use Rattle.std.specs.Prelude.{◌≡◌, true, ◌+◌, ◌≤◌, length, get_or};
ghost use Rattle.trace.specs.Trace.{op_at, record_at, step_at, trace_right};
ghost use Rattle.trace.specs.Trace.{fits as Trace·fits};

// The longest trace, and the version that is read.
const MOST: usize = 65535;

const VERSION: u8 = 2;

// An operation as it is read: its numbers, and of a store the part of the trace that holds its bytes.
#[derive(Clone, Copy)]
pub enum Op {
    Grant(usize),
    Release(usize),
    ResizeInPlace(usize, usize),
    Measure(usize),
    Store {
        offset: usize,
        from: usize,
        to: usize,
    },
    Report,
    Move(usize, usize),
}

// What stands at a place: a record with the place after it, what is no record, or the end.
#[derive(Clone, Copy)]
pub enum Step {
    Record(Op, usize),
    Bad,
    End,
}

// Whether n bytes are right for an operation.
fn fits(op: u8, n: usize) -> bool
    ensures { result ≡ Trace·fits op n }
{
    match op {
        1 => n == 5,
        2 => n == 5,
        3 => n == 9,
        4 => n == 5,
        5 => 5 <= n,
        6 => n == 1,
        7 => n == 9,
        _ => false,
    }
}

// The operation whose n bytes stand at a place, and are right for it.
fn op_at(s: &[u8], at: usize, n: usize) -> Op
    requires n_in_range { (1 ≤ n) × (at + n ≤ length s.now) }
    requires n_fits { Trace·fits (get_or s.now at 0) n ≡ true }
    ensures { result ≡ op_at (get_or s.now at 0) s.now at n }
{
    let op = s[at];
    match op {
        1 => Op::Grant(mem::big4(s, at + 1)),
        2 => Op::Release(mem::big4(s, at + 1)),
        3 => Op::ResizeInPlace(mem::big4(s, at + 1), mem::big4(s, at + 5)),
        4 => Op::Measure(mem::big4(s, at + 1)),
        5 => Op::Store {
            offset: mem::big4(s, at + 1),
            from: at + 5,
            to: at + n,
        },
        7 => Op::Move(mem::big4(s, at + 1), mem::big4(s, at + 5)),
        _ => Op::Report,
    }
}

// The record whose n bytes stand at a place.
fn record_of(s: &[u8], at: usize, n: usize) -> Step
    requires { at + n ≤ length s.now }
    ensures { result ≡ record_at s.now at n }
{
    if n == 0 {
        return Step::Bad;
    }
    if !fits(s[at], n) {
        return Step::Bad;
    }
    let op = op_at(s, at, n);
    Step::Record(op, at + n)
}

// What stands at a place of a trace. This is the work of the reader.
pub fn step_at(s: &[u8], at: usize) -> Step
    ensures { result ≡ step_at s.now at }
{
    let len = s.len();
    if len <= at {
        return Step::End;
    }
    if len - at < 2 {
        return Step::Bad;
    }
    let n = mem::big2(s, at);
    let body = at + 2;
    if len - body < n {
        return Step::Bad;
    }
    record_of(s, body, n)
}

// Whether a trace has a length and a version that are read.
pub fn readable(trace: &[u8]) -> bool
    ensures { result ≡ trace_right trace.now }
{
    let len = trace.len();
    if len == 0 {
        return false;
    }
    if MOST < len {
        return false;
    }
    trace[0] == VERSION
}

// A reader: the caller's trace, and a place in it.
#[derive(Clone, Copy)]
pub struct Reader<'a> {
    pub trace: &'a [u8],
    pub place: usize,
}

// A reader at a place of a trace.
pub fn reader_at<'a>(trace: &'a [u8], place: usize) -> Reader<'a>
    ensures { (result.trace ≡ trace.entry) × (result.place ≡ place) }
{
    Reader { trace, place }
}

// What stands at the reader's place.
pub fn next<'a>(r: Reader<'a>) -> Step
    ensures { result ≡ step_at r.entry.trace.now r.entry.place }
{
    step_at(r.trace, r.place)
}

// What a reader finds at a place. Its parameters are plain, so that a loop can ask it.
pub fn read(trace: &[u8], place: usize) -> Step
    ensures { result ≡ step_at trace.now place }
{
    next(reader_at(trace, place))
}
