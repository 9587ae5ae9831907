// Frames of the question: any budget, and a lent buffer of any length up to the most that is printed at once.
use crate::print;
use crate::print::ROOM;
use search::ask;
use std::io;

// Asks the question of the bytes; false where so much room is not to be had.
pub(crate) fn answer(rt: HostRuntime, input: &[u8], room: usize, budget: u32) -> io::Result<bool> {
    if ROOM < room {
        return Ok(false);
    }
    let mut lent = [0xA5u8; ROOM];
    let o = search::question(input, &mut lent[..room], budget);
    print::number(rt, ask::outcome_number(o) as usize)?;
    print::number(rt, ask::outcome_place(o))?;
    print::lent(rt, &lent[..room])?;
    print::end(rt)?;
    Ok(true)
}
