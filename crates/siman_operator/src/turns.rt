//! The turns of a post after a line of text.

ghost use Rattle.std.specs.Prelude.{◌≡◌, ◌||◌, false};
ghost use Rattle.siman_operator.specs.Noting.{telling};
ghost use Rattle.siman_operator.specs.Deeds.{data_of, printed, IsAtSameTime, GoesOn};
ghost use Rattle.siman_operator.specs.Turns.{is_followed, is_lost, is_out_of_memory, is_unrecorded, TakesTurns};

use crate::post::Post;
use siman_lines::{Line, ServeFault, Served};
use std::alloc::Global;
use std::io::Write;

/// Most receives after a line.
const MOST_TURNS: u32 = 65_536;

/// What failed in the service of a post.
#[derive(Clone, Copy)]
pub struct Trouble {
    /// A call of its link failed.
    pub line: bool,
    /// Memory ran out.
    pub memory: bool,
    /// An entry was not recorded, and no further one will be.
    pub recorder: bool,
}

impl Trouble {
    /// Nothing failed.
    pub(crate) fn none() -> Trouble
        ensures { result ≡ record { line = false; memory = false; recorder = false } }
    {
        Trouble {
            line: false,
            memory: false,
            recorder: false,
        }
    }

    /// What failed, after one more turn.
    fn after(self, turn: Result<Served, ServeFault>) -> Trouble
        ensures { result ≡ record { line = is_lost turn || self.line; memory = is_out_of_memory turn || self.memory; recorder = is_unrecorded turn || self.recorder } }
    {
        let Trouble {
            line,
            memory,
            recorder,
        } = self;
        match turn {
            Ok(_) => self,
            Err(ServeFault::Receive | ServeFault::Send) => Trouble {
                line: true,
                memory,
                recorder,
            },
            Err(ServeFault::Memory) => Trouble {
                line,
                memory: true,
                recorder,
            },
            Err(ServeFault::Record(_)) => Trouble {
                line,
                memory,
                recorder: true,
            },
        }
    }
}

/// Whether another turn follows: a datagram was found, or a send failed, or memory ran out.
fn is_followed(turn: Result<Served, ServeFault>) -> bool
    ensures { result ≡ is_followed turn }
{
    match turn {
        Ok(served) => !served.idle,
        Err(ServeFault::Send | ServeFault::Memory) => true,
        Err(ServeFault::Receive | ServeFault::Record(_)) => false,
    }
}

impl<'s, L: Line + Drop, W: Write> Post<'s, L, W> {
    /// Serves the station until a receive finds nothing or fails, with at most 65,536 receives.
    /// Goes on if a send fails or memory runs out; ends if an entry is not recorded. Returns what
    /// failed.
    pub(crate) fn take_turns<O: Write>(&mut self, alloc: Global, out: &mut O) -> Trouble
        ensures ends { TakesTurns (telling L.passed) self.old.clock self.old.station self.old.recorder self.new.station self.new.recorder result }
        ensures time { IsAtSameTime (data_of self.old) (data_of self.new) }
        ensures goes { GoesOn (printed (data_of self.old) (O.contents out.old)) (printed (data_of self.new) (O.contents out.new)) }
    {
        let mut trouble = Trouble::none();
        for _ in 0..MOST_TURNS {
            let turn = self.serve_once(alloc, out);
            trouble = trouble.after(turn);
            if !is_followed(turn) {
                return trouble;
            }
        }
        trouble
    }
}
