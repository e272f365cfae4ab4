#![tactic(auto)]

// Reads commands from standard input and writes the file of the drawing after them to standard output.
fn main(rt: HostRuntime) {
    let mut script = printing::script_space();
    let r = console::read_all(&mut rt.reader(), &mut script);
    if r.failed {
        let _ = rt.eprintln("save: cannot read standard input");
        return;
    }
    let n = r.count;
    if 65536 < n {
        let _ = rt.eprintln("too long");
        return;
    }
    let mut file = [0u8; 65536];
    let w = run::save(&script[..n], &mut file);
    if !console::give(&rt, &file, w.count) {
        let _ = rt.eprintln("save: cannot write to standard output");
    }
}
