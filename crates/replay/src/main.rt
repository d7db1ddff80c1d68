// Replay of a field trace (02 §2): prints what the pool answers to the trace on standard input.
#![tactic(auto)]

ghost use Rattle.std.specs.Prelude.{◌≡◌, ◌≤◌, length, IfOk};
ghost use Rattle.io.specs.Counts.{IsPrefixLen};
ghost use Rattle.mem.specs.Bytes.{put};
ghost use Rattle.trace.specs.Replay.{replayed};
ghost use Rattle.player.specs.Printed.{lines_text};

use model::Totals;
use std::io;
use std::io::{Read, Write};

// Writes the text of a trace's lines, and gives its length. Arena and table room are arrays of this program, lent to the library: 16,384
// bytes, and the size of the tables for as many (docs/TABLES.md). The totals go with them by value.
fn replay_text(trace: &[u8], out: &mut [u8; player::TEXT]) -> usize
    ensures value { result ≡ length (lines_text (replayed trace.now)) }
    ensures out_after { out.new ≡ put 0 (lines_text (replayed trace.now)) out.old }
    ensures prefix_len { IsPrefixLen result out.new }
{
    let mut arena = [0u8; 16384];
    let mut room = [0u8; 8464];
    let totals = Totals::default();
    player::replay(&mut arena, &mut room, totals, trace, out)
}

// Reads until the buffer is full or the input ends, and gives the number of bytes that were read.
fn read_full(input: &mut impl Read, buf: &mut [u8]) -> io::Result<usize>
    ensures { IfOk result (λ n. n ≤ length buf.new) }
{
    let mut done = 0;
    while done < buf.len() {
        let n = input.read(&mut buf[done..])?;
        if n == 0 {
            break;
        }
        done += n;
    }
    Ok(done)
}

// Reads one byte more than the longest trace has, if there is one, so that a longer one is told.
fn main(rt: HostRuntime) -> io::Result<()> {
    let mut trace = [0u8; 65536];
    let n = read_full(&mut rt.reader(), &mut trace)?;
    let mut out = [0u8; player::TEXT];
    let end = replay_text(&trace[..n], &mut out);
    io::writer(&rt).write_all(&out[..end])
}
