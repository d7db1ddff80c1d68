// The text of a record's line, in a lent buffer (02 §2).
#![tactic(auto)]

ghost use Rattle.std.specs.Prelude.{◌≡◌, [], ◌+◌, ◌*◌, ◌≤◌, length};
ghost use Rattle.mem.specs.Lists.{join};
ghost use Rattle.mem.specs.Bytes.{put};
ghost use Rattle.trace.specs.Replay.{Line, line_of};
ghost use Rattle.line_text.specs.Lines.{field, line_text, answer_of, is_bad, Short};

use model::{Refusal, Totals};

// What a record tells: an answer with one value, a report, or that the record is bad.
#[derive(Clone, Copy)]
pub enum Said {
    One(Result<usize, Refusal>),
    Six(Result<Totals, Refusal>),
    Bad,
}

// Writes a space and a number at a place, and gives the place after them.
fn put_field(out: &mut [u8], at: usize, n: usize) -> usize
    requires { at + 21 ≤ length out.old }
    ensures value { result ≡ at + length (field n) }
    ensures out_after { out.new ≡ put at (field n) out.old }
    ensures small { result ≤ at + 21 }
{
    out[at] = b' ';
    text::put_decimal(out, at + 1, n as u64)
}

fn put_fields(out: &mut [u8], at: usize, values: &[usize]) -> usize
    requires { at + 21 * length values.now ≤ length out.old }
    ensures value { result ≡ at + length (join field values.now) }
    ensures out_after { out.new ≡ put at (join field values.now) out.old }
    ensures small { result ≤ at + 21 * length values.now }
{
    let mut end = at;
    for &v in values {
        end = put_field(out, end, v);
    }
    end
}

// Writes the line of an answer's number and values.
fn put_answer(out: &mut [u8], at: usize, number: u32, values: &[usize]) -> usize
    requires { at + (21 + 21 * length values.now) ≤ length out.old }
    ensures value { result ≡ at + length (line_text (Line.told (record { number = number; values = values.now; lent = [] }))) }
    ensures out_after { out.new
        ≡ put at (line_text (Line.told (record { number = number; values = values.now; lent = [] }))) out.old }
    ensures small { result ≤ at + (21 + 21 * length values.now) }
{
    let told = text::put_decimal(out, at, number as u64);
    let end = put_fields(out, told, values);
    out[end] = b'\n';
    end + 1
}

// Writes the line of a bad record.
pub fn put_bad(out: &mut [u8], at: usize, count: usize) -> usize
    requires { at + 25 ≤ length out.old }
    ensures value { result ≡ at + length (line_text (Line.bad count)) }
    ensures out_after { out.new ≡ put at (line_text (Line.bad count)) out.old }
    ensures small { result ≤ at + 25 }
{
    mem::copy_in(out, at, b"bad");
    let end = put_field(out, at + 3, count);
    out[end] = b'\n';
    end + 1
}

// Writes the line of a record at a place, and gives the place after it.
pub fn put_line(out: &mut [u8], at: usize, count: usize, told: Said) -> usize
    requires { (at + 150 ≤ length out.old) × Short told }
    ensures value { result ≡ at + length (line_text (line_of count (answer_of told))) }
    ensures out_after { out.new ≡ put at (line_text (line_of count (answer_of told))) out.old }
    ensures small { result ≤ at + 45 }
{
    match told {
        Said::One(r) => put_answer(out, at, answers::number_of(r), &[answers::value_of(r)]),
        Said::Six(r) => put_answer(out, at, answers::number_of(r), &answers::report_values(r)),
        Said::Bad => put_bad(out, at, count),
    }
}

// Whether a record is bad, and so the last.
pub fn is_bad(told: Said) -> bool
    ensures { result ≡ is_bad (answer_of told) }
{
    matches!(told, Said::Bad)
}
