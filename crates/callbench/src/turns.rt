// The next call of a run, and what is left after its answer.
ghost use Rattle.std.specs.Prelude.{◌≡◌, ◌-◌, eqb, ltb};

use crate::{Run, Work};
use calls::{Answer, StepCall};
use records::{ClientCall, NodeCall};
use routing::VolumeCall;
use tables::Volume;
use taking::PickRequest;

impl Run {
    pub(crate) fn goes_on(self) -> bool
        ensures { result ≡ ltb 0 self.left }
    {
        0 < self.left
    }

    // The next call is a pick.
    pub(crate) fn picks(self) -> bool
        ensures { result ≡ eqb self.at self.pick }
    {
        self.at == self.pick
    }

    pub(crate) fn pick(self) -> PickRequest
        ensures { result.z ≡ self.z }
    {
        let z = self.z;
        PickRequest { z: z, c: 1 }
    }

    pub(crate) fn step(self) -> taking::Request
        ensures { result.z ≡ self.z }
    {
        let z = self.z;
        let call = self.call();
        taking::Request { z: z, call: call }
    }

    pub(crate) fn volume_pick(self) -> routing::Request
        ensures { result.stripe ≡ self.stripe }
    {
        self.of_volume(VolumeCall::Pick(1))
    }

    pub(crate) fn volume_step(self) -> routing::Request
        ensures { result.stripe ≡ self.stripe }
    {
        let call = self.call();
        self.of_volume(VolumeCall::Step(call))
    }

    fn of_volume(self, call: VolumeCall) -> routing::Request
        ensures { result.stripe ≡ self.stripe }
    {
        let z = self.z;
        let volume = Volume {
            stripes: self.stripes,
            z: z,
        };
        routing::Request {
            volume: volume,
            stripe: self.stripe,
            call: call,
        }
    }

    fn call(self) -> StepCall {
        let work = self.work;
        match work {
            Work::Dues => StepCall::Due(self.at % 18 + 1),
            Work::Swaps => StepCall::Swap(self.at % 8 + 1, 1),
            Work::Adds => StepCall::At(NodeCall::Add, self.at % 8 + 1, self.at / 8 + 13),
            Work::Rebuild => StepCall::By(self.rebuilding(), 1),
            Work::Writes => self.writing(),
            Work::Card => self.recovering(),
            Work::Ticks => StepCall::Tick,
            Work::Locks => StepCall::By(ClientCall::Lock, 1),
        }
    }

    // The locks are 18, and after the pick so are the writes, the settles and the unlocks.
    fn rebuilding(self) -> ClientCall {
        if self.at < self.pick {
            return ClientCall::Lock;
        }
        if self.at < 37 {
            return ClientCall::Write;
        }
        if self.at < 55 {
            return ClientCall::Settle;
        }
        ClientCall::Unlock
    }

    // A card's failure is before the first round.
    fn recovering(self) -> StepCall {
        if self.last < self.at {
            return StepCall::Fail(1);
        }
        StepCall::By(self.rebuilding(), 1)
    }

    // Eight swaps, each with an add at each of the six redundant nodes, and then the sweeps of a round, twice 18.
    fn writing(self) -> StepCall {
        if 56 <= self.at {
            return StepCall::By(ClientCall::Sweep, 1);
        }
        let turn = self.at % 7;
        if turn == 0 {
            return StepCall::Swap(1, 1);
        }
        StepCall::At(NodeCall::Add, 1, turn + 12)
    }

    // After the answer to the next call.
    pub(crate) fn after(self, answer: Answer) -> Run
        ensures { result.left ≡ self.left - 1 }
    {
        let mut next = self.moved();
        next.left = less(self.left);
        if self.number == 0 {
            next.number = answer.number();
        }
        next
    }

    // At the next place, or in a new round.
    fn moved(mut self) -> Run {
        if self.at < self.last {
            self.at = self.at + 1;
            return self;
        }
        if self.at == self.last {
            let stripe = self.next_stripe();
            self.stripe = stripe;
        }
        self.at = 0;
        self
    }

    // A card's rebuilds are one in each stripe, and all other work is in one.
    fn next_stripe(self) -> usize {
        let work = self.work;
        match work {
            Work::Card => self.stripe_after(),
            _ => self.stripe,
        }
    }

    fn stripe_after(self) -> usize {
        if self.stripe < self.stripes {
            return self.stripe + 1;
        }
        self.stripe
    }
}

fn less(left: usize) -> usize
    ensures { result ≡ left - 1 }
{
    if left == 0 {
        return 0;
    }
    left - 1
}
