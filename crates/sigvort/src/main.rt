// The program: reads a call sheet on standard input and writes its answers, or refusal 1 or 2 alone on a line. Of a sheet that is too long it reads
// 65,536 bytes, which tell. An input that cannot be read any further ends there.
#![tactic(auto)]

use lit::NONE;

fn main(rt: HostRuntime) {
    let mut sheet = [0u8; 65536];
    let mut answers = [0u8; 65536];
    let mut positions = [NONE; 2048];
    let n = input::read_all(&mut rt.stdin(), &mut sheet).unwrap_or_else(|cut| cut.len);
    let k = desk::print(&sheet[..n], &mut answers, &mut positions) as usize;
    if rt.write_all(&answers[..k]).is_err() {
        let _ = rt.eprintln("sigvort: the answers could not be written");
    }
}
