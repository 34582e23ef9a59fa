// Runs outside cases: reads them from standard input, calls the entry that each names on the buffers that it describes, and writes the answer's numbers and a digest of every buffer. tests/outside/cases/PROTOCOL.md has the form of both; the stored answers come from an emulator that shares nothing with the crates.
#![tactic(auto)]

mod answers;
mod buffers;
mod calls;
mod cases;
mod records;
mod rooms;

// Every case of the input, one after the other, and at most a million.
fn main(rt: HostRuntime) {
    let mut room = [0u8; rooms::WHOLE];
    let mut input = rt.stdin();
    let mut output = rt.stdout();
    for _ in 0..1000000 {
        let mut record = [0u8; 1000];
        if !records::read_record(&mut input, &mut record) {
            break;
        }
        cases::run_case(&mut output, &record, &mut room);
    }
}
