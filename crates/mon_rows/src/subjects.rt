//! What lines ask, and what the lines before them have left.

use mon_call_rows::{answer_poll, poller};
use mon_codec_rows::Exchange;
use mon_poller::Poller;
use mon_station_rows::{Stage, answer_keeper, world};
use std::alloc::Global;
use std::io::{BufRead, BufReader};
use std::mem;

/// What lines change: a station's peers and windows, a station over its disk, and a poller.
pub struct Subjects {
    exchange: Exchange,
    stage: Stage,
    polls: Poller,
}

// By hand: where one is let go, a proof has one call and not a drop of each field.
impl Drop for Subjects {
    fn drop(self) {
        let Subjects {
            exchange: _,
            stage: _,
            polls: _,
        } = self;
    }
}

impl Subjects {
    /// Makes them as they are before the first line.
    pub fn new(alloc: Global) -> Option<Self> {
        let stage = Stage::new(alloc)?;
        let exchange = Exchange::new(alloc)?;
        let polls = poller(alloc)?;
        Some(Subjects {
            exchange,
            stage,
            polls,
        })
    }

    /// Prints what is answered to each line of standard input. Passes over lines that are empty or
    /// begin with #.
    pub fn answer_all(&mut self, rt: &HostRuntime) -> Option<()> {
        let alloc = rt.alloc();
        for line in BufReader::new(alloc, rt.reader()).ok()?.lines(alloc) {
            let line = line.ok()?;
            self.answer(rt, line.as_str())?;
        }
        Some(())
    }

    /// Does what a line says, and prints what is answered. To `new` nothing is.
    fn answer(&mut self, rt: &HostRuntime, line: &str) -> Option<()> {
        match line {
            "station new" => self.stage.renew(rt.alloc()),
            "poller new" => {
                drop(mem::replace(&mut self.polls, poller(rt.alloc())?));
                Some(())
            }
            _ if line.is_empty() || line.starts_with('#') => Some(()),
            _ => {
                let mut text = String::new(rt.alloc());
                self.put_answer(rt, &mut text, line)?;
                println!(rt; "{text}").ok()
            }
        }
    }

    /// Appends what is answered to a line, by its first word.
    fn put_answer(&mut self, rt: &HostRuntime, text: &mut String, line: &str) -> Option<()> {
        let alloc = rt.alloc();
        let (word, rest) = line.split_once(' ')?;
        match word {
            "station" => self.stage.answer(alloc, text, rest),
            "world" => world(alloc, text, rest),
            "poller" => answer_poll(alloc, text, &mut self.polls, rest),
            "keeper" => answer_keeper(rt, text, rest),
            "note" | "known" | "offer" => self.exchange.answer(alloc, text, word, rest),
            "agent" | "client" | "mib" | "reader" | "smi" => mon_call_rows::answer(
                alloc, text, word, rest,
            ),
            _ => mon_codec_rows::answer(alloc, text, word, rest),
        }
    }
}
