// The writing of the gapless case: its length, a number, a pair, the pairs of all parts, and the parts.
ghost use Rattle.std.specs.Prelude.{◌≡◌, ◌+◌, ◌*◌, ◌≤◌, ◌<◌, length};
ghost use Rattle.theory.specs.Lists.{written};
ghost use Rattle.casefile.specs.Gapless.{gapless_of};
ghost use Rattle.casefile.specs.Steps.{with_u16, with_pair, with_pairs, with_parts};

use crate::Case;

// What `copy`, `put_u16` and `put_pair` write stands at a place of the whole buffer, as `written`, `with_u16` and `with_pair` of the specs say it.

// Writes bytes at a place of a buffer.
fn copy(part: &[u8], out: &mut [u8], at: usize)
    requires { at + length part.now ≤ length out.old }
    ensures { out.new ≡ written at part.now out.old }
{
    out[at..at + part.len()].copy_from_slice(part);
}

// Writes a number of 16 bits, low byte first. (`as`, as x is proved below 2^16: there is no `From`, and `try_from` would bring an `unwrap`.)
fn put_u16(out: &mut [u8], at: usize, x: usize)
    requires { (at + 1 < length out.old) × (x < 65536) }
    ensures { out.new ≡ with_u16 out.old at x }
{
    out[at..at + 2].copy_from_slice(&(x as u16).to_le_bytes());
}

// Writes the pair of part i.
fn put_pair(out: &mut [u8], i: u8, start: usize, size: usize)
    requires { (4 + 4 * i < length out.old) × (start < 65536) × (size < 65536) }
    ensures { out.new ≡ with_pair out.old i start size }
{
    put_u16(out, 1 + 4 * usize::from(i), start);
    put_u16(out, 3 + 4 * usize::from(i), size);
}

impl<'a> Case<'a> {
    // How many bytes the gapless case of the parts has.
    pub fn gapless_length(self) -> usize
        ensures { result ≡ length (gapless_of self.entry.bytes.now) }
    {
        // A loop: `sum` asks before its first turn that no sum of the parts is too large, and the proof of that did not close.
        let mut length = self.directory().end();
        for i in 0..self.bytes[0] {
            length += self.part(i).len();
        }
        length
    }

    // Writes the pairs of offset and length, for parts without gaps.
    fn write_pairs(self, out: &mut [u8])
        requires { length (gapless_of self.bytes.now) ≤ length out.old }
        ensures { out.new ≡ with_pairs self.entry.bytes.now out.old }
    {
        let mut at = self.directory().end();
        for i in 0..self.bytes[0] {
            let size = self.part(i).len();
            put_pair(out, i, at, size);
            at += size;
        }
    }

    // Writes the bytes of the parts, one after the other, after the directory.
    fn write_parts(self, out: &mut [u8])
        requires { length (gapless_of self.bytes.now) ≤ length out.old }
        ensures { out.new ≡ with_parts self.entry.bytes.now out.old }
    {
        let mut place = self.directory().end();
        for i in 0..self.bytes[0] {
            let p = self.part(i);
            copy(p, out, place);
            place += p.len();
        }
    }

    // Writes the gapless case of the parts; `gapless_length` says how many bytes it has. The bytes after it are unchanged.
    pub fn write(self, out: &mut [u8])
        requires { length (gapless_of self.bytes.now) ≤ length out.old }
        ensures { out.new ≡ written 0 (gapless_of self.entry.bytes.now) out.old }
    {
        out[0] = self.bytes[0];
        self.write_pairs(out);
        self.write_parts(out);
    }
}
