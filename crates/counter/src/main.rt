// Makes calls of the memory, so that their executed instructions can be counted (tests/count-memory). Standard input has the calls, up to 1,024, of three bytes each: what is called (1 store, 2 masked store, any other a load), its mode and its address.
// Where none is asked for, nothing is done and written. What the calls leave is written out, so that no compiler finds them idle; `vectors` holds the answers.
#![tactic(auto)]

ghost use Rattle.std.specs.Prelude.{◌≤◌, length};

use std::io::{Read, Write};

// One call of the memory, and the item after it.
fn access(mem: &mut [u8; 8192], call: [u8; 3], item: &[u8; 32], mask: &[u8; 32]) -> [u8; 32] {
    let [what, mode, addr] = call;
    match what {
        1 => {
            memory::store(mem, mode, addr, item);
            *item
        }
        2 => {
            memory::store_masked(mem, mode, addr, item, mask);
            *item
        }
        _ => memory::load(mem, mode, addr),
    }
}

// Reads until the buffer is full, the input ends or a read fails: how many bytes there are.
fn read_full(input: &mut impl Read, buffer: &mut [u8]) -> usize
    ensures { result ≤ length buffer.new }
{
    let mut done: usize = 0;
    // A `while`: the count moves by what a read gives.
    while done < buffer.len() {
        match input.read(&mut buffer[done..]) {
            Err(_) | Ok(0) => return done,
            Ok(more) => done += more,
        }
    }
    done
}

fn main(rt: HostRuntime) {
    let mut output = rt.stdout();
    let mut steps = [0u8; 3072];
    let mut mem = [165u8; 8192];
    let mut item = [90u8; 32];
    let mask = [60u8; 32];
    let got = read_full(&mut rt.stdin(), &mut steps);
    if got == 0 {
        return;
    }
    let (calls, _) = steps[..got].as_chunks::<3>();
    for call in calls {
        item = access(&mut mem, *call, &item, &mask);
    }
    let _ = output.write_all(&item);
    let _ = output.write_all(&mem);
}
