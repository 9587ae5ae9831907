// What a buffer's entry is, as its tag says: its lane has it as a number, as the definitions of lanes do. What follows
// from an entry's kind asks here; where a tag is only looked for, or is a queue's mark, it stays a number.
ghost use Rattle.search.specs.Kinds.{Says};

use crate::sizes::TAGS;
use cases::case::Location;

#[derive(Clone, Copy)]
pub enum Kind {
    Store(Location),
    Flush(Location),
    FlushOpt(Location),
    Sfence,
}

impl From<u32> for Kind {
    ghost from_gives = { λ tag k. Says k tag };

    fn from(tag: u32) -> Kind {
        let l = Location((tag % TAGS) as u8);
        match tag / TAGS {
            0 => Kind::Store(l),
            1 => Kind::Flush(l),
            2 => Kind::FlushOpt(l),
            _ => Kind::Sfence,
        }
    }
}
