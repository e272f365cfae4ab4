#![tactic(auto)]

// The calls on a struct, for a program that tries them from outside.

// Room for the longest file of a sound drawing.
const FILE_MOST: usize = 65536;

// The drawing of the file, the command at the front of the script on it, and the file of the drawing that it gives: the four
// numbers of the answer go to the line, the count of the file's bytes to `bytes`. A file that is refused gets 10, and nothing is
// written.
#[unsafe(no_mangle)]
pub extern "C" fn ds_command(
    file: &[u8],
    script: &[u8],
    line: &mut [u32; 4],
    out: &mut [u8],
    bytes: &mut u32,
) -> u32 {
    let f = register::read(file);
    if f.number != 0 {
        return f.number;
    }
    let a = register::command(f.drawing, script);
    line[0] = a.number;
    line[1] = a.first;
    line[2] = a.new;
    line[3] = a.removed;
    let w = register::write(a.drawing, out);
    if w.count <= FILE_MOST {
        *bytes = w.count as u32;
    }
    w.number
}
