// Reads a query file on standard input and prints its cheapest plan, no route, or the refusal.
#![tactic(auto)]

mod listing;

ghost use Rattle.std.specs.Prelude.{◌≤◌, length};

use std::io::{Read, Write};

fn main(rt: HostRuntime) {
    // A file has at most 1,674 bytes, so the front of a longer input decides: whatever follows Delivery is refused by its first byte.
    let mut file = [0u8; 4096];
    let n = read_full(&mut rt.stdin(), &mut file);
    // Each word and number is a write of its own, so that of a listing that does not fit what fits is written.
    let listing = listing::list(&file[..n]);
    if write!(rt.stdout(), "{listing}").is_err() {
        let _ = eprintln!(rt; "plan: the listing was not written");
    }
}

// Reads until the buffer is full, the input ends or a read fails, and answers how many bytes stand at the buffer's front.
// (`read_exact` does not say how many came before the end, and `read_to_end` takes memory.)
fn read_full(input: &mut impl Read, buffer: &mut [u8]) -> usize
    ensures { result ≤ length buffer.new }
{
    let mut done = 0;
    while done < buffer.len() {
        match input.read(&mut buffer[done..]) {
            Ok(0) | Err(_) => break,
            Ok(n) => done += n,
        }
    }
    done
}
