// The checking program (document 01, "The checking program"): standard input to one line on standard output. It only reads and writes; the line is
// the crate `line`'s.
#![tactic(auto)]

ghost use Rattle.std.specs.Prelude.{◌≤◌, length};

use std::io::Read;

// One byte more than an input may have, so that a longer one shows.
const READ: usize = 8193;

// Reads until the buffer is full or the input ends, and answers how many bytes it put at the buffer's start. A read that fails counts as the end.
// `cases` has the same function: the libraries below both programs know nothing of input. A read may give any count,
// so the loop is no `for`.
fn read_full<R: Read>(from: &mut R, buf: &mut [u8]) -> usize
    ensures { result ≤ length buf.new }
{
    let mut done = 0;
    while done < buf.len() {
        let n = from.read(&mut buf[done..]).unwrap_or(0);
        if n == 0 {
            break;
        }
        done += n;
    }
    done
}

fn main(rt: HostRuntime) {
    let mut input = [0u8; READ];
    let n = read_full(&mut rt.stdin(), &mut input);
    let mut out = [0u8; 1024];
    let size = line::line_of(&input[..n], &mut out);
    let _ = rt.write_all(&out[..size]);
}
