// Numbers as text in a lent buffer: what a program prints is proved up to the bytes that it hands to a write.
#![tactic(auto)]

ghost use Rattle.std.specs.Prelude.{◌≡◌, ◌+◌, ◌≤◌, length};
ghost use Rattle.mem.specs.Bytes.{put};
ghost use Rattle.text.specs.Decimal.{decimal};

// Writes n in decimal at a place, and gives the place after it.
pub fn put_decimal(out: &mut [u8], at: usize, n: u64) -> usize
    requires { at + 20 ≤ length out.old }
    ensures value { result ≡ at + length (decimal n) }
    ensures out_after { out.new ≡ put at (decimal n) out.old }
    ensures small { result ≤ at + 20 }
{
    let mut text = [0u8; 20];
    let k = io::decimal(n, &mut text);
    mem::copy_in(out, at, &text[..k]);
    at + k
}
