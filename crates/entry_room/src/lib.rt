#![tactic(auto)]

// Question 9 of a run: is there room for what it tells, and for a file?
ghost use Rattle.std.specs.Prelude.{◌≡◌};
ghost use Rattle.entry_room.specs.Rooms.{lines_no, room_no};

// The number of a no.
const NO_ROOM: u32 = 9;

// How many numbers are told of a command.
const LINE_WIDTH: usize = 5;

// The longest script, whose length is a u32.
const SCRIPT_MOST: usize = 4294967295;

// Room for the longest file of a sound drawing.
const FILE_MOST: usize = 65536;

// 9, or 0 where there are five places for each byte of a script, whose length is a u32.
pub fn lines_no(script: usize, lines: usize) -> u32
    ensures { result ≡ lines_no script lines }
{
    if SCRIPT_MOST < script {
        return NO_ROOM;
    }
    if lines < LINE_WIDTH * script {
        return NO_ROOM;
    }
    0
}

// 9, or 0 where the lent memory has the room that a script's run may need.
pub fn room_no(script: usize, lines: usize, out: usize) -> u32
    ensures { result ≡ room_no script lines out }
{
    let no = lines_no(script, lines);
    if no != 0 {
        return no;
    }
    if out < FILE_MOST {
        return NO_ROOM;
    }
    0
}
