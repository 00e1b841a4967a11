// Runs the cases of standard input, each a house proposal or a check, and prints a line for each; `tests/cases/expect.py` makes the input and the
// lines to match.
//
// A case is a kind, two sizes of two bytes each, low byte first, and its packs. A house proposal (kind 0) has the size of the job pack, the room for
// the proposal, and the job pack; its line is number, place and the bytes written. A check (kind 1) has the sizes of both packs, the job pack and the
// proposal pack; its line is number, place, F and G.
#![tactic(auto)]

ghost use Rattle.std.specs.Prelude.{◌≤◌, length};

use house::proposal::propose;
use measure::check::check;
use refusals::{number_of, place_of};
use std::io::Read;

// The most cases that are run: the program ends, even where its input does not.
const CASES: usize = 10000;

// The most bytes of a pack, and the most room for a proposal. No pack that can be read is longer.
const PACK: usize = 4096;

// The proposal for a pack, into an output, and its outcome on a line. What cannot be printed is lost, and the next case is run.
fn print_proposal(rt: &impl Print, pack: &[u8], out: &mut [u8]) {
    match propose(pack, out) {
        Ok(n) => {
            let _ = print!(rt; "0 {n}");
            for byte in out.iter().take(n) {
                let _ = print!(rt; " {byte}");
            }
            let _ = println!(rt; "");
        }
        Err(r) => {
            let _ = println!(rt; "{} {}", number_of(r), place_of(r));
        }
    }
}

// The verdict on two packs, on a line.
fn print_verdict(rt: &impl Print, job: &[u8], proposal: &[u8]) {
    let _ = match check(job, proposal) {
        Ok(figures) => println!(rt; "0 0 {} {}", figures.loss, figures.gap),
        Err(r) => println!(rt; "{} {} 0 0", number_of(r), place_of(r)),
    };
}

// Reads until the buffer is full or the input ends, and answers how many bytes it put at the buffer's start. A read that fails counts as the end.
// `checker` has the same function: the libraries below both programs know nothing of input. A read may give any count,
// so the loop is no `for`.
fn read_full<R: Read>(from: &mut R, buf: &mut [u8]) -> usize
    ensures { result ≤ length buf.new }
{
    let mut done = 0;
    while done < buf.len() {
        let n = from.read(&mut buf[done..]).unwrap_or(0);
        if n == 0 {
            break;
        }
        done += n;
    }
    done
}

// Reads so many bytes to the start of a pack's room, and answers whether the input had them.
fn read_pack(rt: &HostRuntime, size: usize, pack: &mut [u8]) -> bool
    requires { size ≤ length pack.old }
{
    let n = read_full(&mut rt.stdin(), &mut pack[0..size]);
    n == size
}

// A house proposal for a job pack of so many bytes, with so much room.
fn house_case(rt: &HostRuntime, size: usize, room: usize) -> bool {
    if PACK < size || PACK < room {
        return false;
    }
    let mut pack = [0u8; PACK];
    let mut out = [0u8; PACK];
    if !read_pack(rt, size, &mut pack) {
        return false;
    }
    print_proposal(rt, &pack[0..size], &mut out[0..room]);
    true
}

// A check of the proposal pack that follows, of so many bytes, against a job pack.
fn check_against(rt: &HostRuntime, job: &[u8], size: usize) -> bool {
    if PACK < size {
        return false;
    }
    let mut proposal = [0u8; PACK];
    if !read_pack(rt, size, &mut proposal) {
        return false;
    }
    print_verdict(rt, job, &proposal[0..size]);
    true
}

// A check, with a job pack and a proposal pack of so many bytes.
fn check_case(rt: &HostRuntime, job_size: usize, proposal_size: usize) -> bool {
    if PACK < job_size {
        return false;
    }
    let mut job = [0u8; PACK];
    if !read_pack(rt, job_size, &mut job) {
        return false;
    }
    check_against(rt, &job[0..job_size], proposal_size)
}

// The next case; false where the input has none.
fn next_case(rt: &HostRuntime) -> bool {
    let mut head = [0u8; 5];
    let n = read_full(&mut rt.stdin(), &mut head);
    if n < 5 {
        return false;
    }
    let [kind, a, b, c, d] = head;
    let first = usize::from(u16::from_le_bytes([a, b]));
    let second = usize::from(u16::from_le_bytes([c, d]));
    match kind {
        0 => house_case(rt, first, second),
        1 => check_case(rt, first, second),
        _ => false,
    }
}

fn main(rt: HostRuntime) {
    for _ in 0..CASES {
        if !next_case(&rt) {
            return;
        }
    }
}
