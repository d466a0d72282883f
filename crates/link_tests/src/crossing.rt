// A slip of one link at another: refused there, handed back, and filed at its own.
use crate::follow::Tried;
use link::draft::Draft;
use link::error::MakeError;
use link::link::Link;
use slot_clock::clock::SlotClock;
use std::alloc::Global;
use std::marker::Model;
use std::process::Abort;
use std::test::Fail;
use tick_machine::call::{Making, Totals};
use tick_machine::refusal::Refusal;
use waiting_line::line::WaitingLine;

#[derive(Drop)]
struct Open<W: WaitingLine, S: SlotClock> {
    link: Link<W, S>,
}

// Some history led to the link.
impl<W: WaitingLine, S: SlotClock> Model for Open<W, S> {
    ghost use Rattle.std.specs.Prelude.{List};
    ghost use Rattle.tick_machine.specs.declared.call.Call.{Call};
    ghost use Rattle.tick_machine.specs.Machine.{Config};
    ghost use Rattle.link.specs.declared.link.Link.{Link};
    ghost use Rattle.link.specs.Promise.{Led};

    ghost Value = { Link W S };

    ghost view = { λ o. o.link };

    ghost invariant = { λ o. (c : Config) × ((calls : List Call) × Led W.WaitingLine S.SlotClock c calls o.link) };
}

impl<W: WaitingLine, S: SlotClock> Open<W, S> {
    // An open link of one session.
    fn opened(heap: Global, number: u64) -> Result<Open<W, S>, MakeError>
    where
        W: Drop,
    {
        let making = Making {
            number,
            largest: 10,
            capacity: 8,
            weight: 1,
        };
        let (link, _round) = Draft::<W>::make(heap, making)?.open::<S>();
        Ok(Open { link })
    }

    // A packet comes and leaves.
    fn send_one(&mut self) {
        let _ = self.link.arrive(0, 1, 5);
        let _ = self.link.move_to(1);
    }

    // The slip of the next packet is offered to the other link. Why it is refused there, and the number under which it is then filed at its own.
    fn offer(&mut self, other: &mut Open<W, S>) -> Option<(Refusal, u64)> {
        let slip = self.link.collect()?;
        match other.link.file(slip) {
            Ok(_) => None,
            Err((why, back)) => match self.link.file(back) {
                Ok(number) => Some((why, number)),
                Err(_again) => unreachable(),
            },
        }
    }
}

// Why a slip was refused at another link, the number under which it was then filed at its own, and what each link counts after it.
#[derive(Clone, Copy, PartialEq, Eq, Debug)]
struct Crossed {
    why: Refusal,
    number: u64,
    own: Totals,
    other: Totals,
}

// The slip of the first link is offered to the second.
#[derive(Clone, Copy)]
struct Crossing {
    own: u64,
    other: u64,
    expected: Crossed,
}

impl Crossing {
    fn happens<W: WaitingLine + Drop, S: SlotClock + Drop>(&self, heap: Global) -> Option<Crossed> {
        let mut own: Open<W, S> = Open::opened(heap, self.own).ok()?;
        let mut other: Open<W, S> = Open::opened(heap, self.other).ok()?;
        own.send_one();
        let (why, number) = own.offer(&mut other)?;
        Some(Crossed {
            why,
            number,
            own: own.link.totals(),
            other: other.link.totals(),
        })
    }
}

impl Tried for Crossing {
    fn over<W: WaitingLine + Drop, S: SlotClock + Drop>(
        &self,
        rt: &(impl Abort + AllocGlobal),
        pair: &str,
    ) -> Result<(), Fail> {
        assert_eq!(rt;
            self.happens::<W, S>(rt.alloc()),
            Some(self.expected),
            "{pair}"
        );
        Ok(())
    }
}

#[test]
fn slips_of_another_link(rt: HostRuntime) -> Result<(), Fail> {
    let none = Totals {
        waiting: 0,
        sending: 0,
        left: 0,
        out: 0,
        filed: 0,
        returned: 0,
    };
    let filed = Totals { filed: 1, ..none };
    let expected = Crossed {
        why: Refusal::OtherLink,
        number: 0,
        own: filed,
        other: none,
    };
    Crossing {
        own: 7,
        other: 8,
        expected,
    }
    .on_all_four(&rt)?;
    let expected = Crossed {
        why: Refusal::NotOut,
        ..expected
    };
    Crossing {
        own: 7,
        other: 7,
        expected,
    }
    .on_all_four(&rt)
}
