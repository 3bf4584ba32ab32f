// What a line asks of the volume.
ghost use Rattle.std.specs.Prelude.{◌≡◌};
ghost use Rattle.layout.specs.Layout.{home_of};
ghost use Rattle.volumescript.specs.Asking.{call_in, call_on, count_in, no_call, no_read, no_volume, read_block_on, read_in, read_on, swap_on};

use crate::reader::VolumeLine;
use calls::{Call, StepCall};
use layout::Home;
use records::Sizes;
use routing::{ReadRequest, Request, VolumeCall};
use tables::Volume;

// A call that every volume refuses: a volume of no stripes.
fn no_volume() -> Volume
    ensures { result ≡ no_volume }
{
    let z = Sizes {
        k: 0,
        n: 0,
        b: 0,
        failures: 0,
        m: 0,
    };
    Volume { stripes: 0, z }
}

fn no_call() -> Request
    ensures { result ≡ no_call }
{
    let volume = no_volume();
    Request {
        volume,
        stripe: 0,
        call: VolumeCall::Pick(0),
    }
}

fn no_read() -> ReadRequest
    ensures { result ≡ no_read }
{
    let volume = no_volume();
    ReadRequest {
        volume,
        stripe: 0,
        i: 0,
    }
}

// A call of stripe s but read.
fn call_of(volume: Volume, s: usize, call: Call) -> Request
    ensures { result ≡ call_on volume s call }
{
    match call {
        Call::Read(_) => no_call(),
        Call::Pick(c) => Request {
            volume,
            stripe: s,
            call: VolumeCall::Pick(c),
        },
        Call::Step(step) => Request {
            volume,
            stripe: s,
            call: VolumeCall::Step(step),
        },
    }
}

// The home of a block of the volume.
fn home_of(volume: Volume, b: usize) -> Home
    ensures { result ≡ home_of volume.z.k b }
{
    layout::block_home(volume.z.k, b)
}

fn swap_of(volume: Volume, c: u8, b: usize) -> Request
    ensures { result ≡ swap_on volume c b }
{
    let home = home_of(volume, b);
    Request {
        volume,
        stripe: home.stripe,
        call: VolumeCall::Step(StepCall::Swap(c, home.position)),
    }
}

// The read of stripe s, if the call is one.
fn read_of(volume: Volume, s: usize, call: Call) -> ReadRequest
    ensures { result ≡ read_on volume s call }
{
    match call {
        Call::Read(i) => ReadRequest {
            volume,
            stripe: s,
            i,
        },
        _ => no_read(),
    }
}

fn read_block_of(volume: Volume, b: usize) -> ReadRequest
    ensures { result ≡ read_block_on volume b }
{
    let home = home_of(volume, b);
    ReadRequest {
        volume,
        stripe: home.stripe,
        i: home.position,
    }
}

impl VolumeLine {
    // How many bytes are given with the call.
    pub fn count(self) -> usize
        ensures { result ≡ count_in self }
    {
        match self {
            VolumeLine::One(_, _, count)
            | VolumeLine::Each(_, count)
            | VolumeLine::SwapBlock(_, _, count) => count,
            _ => 0,
        }
    }

    // The call of the volume; one that is refused if the line is none, or a read.
    pub fn call(self, volume: Volume) -> Request
        ensures { result ≡ call_in self volume }
    {
        match self {
            VolumeLine::One(s, call, _) => call_of(volume, s, call),
            VolumeLine::Each(call, _) => call_of(volume, 0, call),
            VolumeLine::SwapBlock(c, b, _) => swap_of(volume, c, b),
            _ => no_call(),
        }
    }

    // The read, or one that is refused.
    pub fn read(self, volume: Volume) -> ReadRequest
        ensures { result ≡ read_in self volume }
    {
        match self {
            VolumeLine::One(s, call, _) => read_of(volume, s, call),
            VolumeLine::ReadBlock(b) => read_block_of(volume, b),
            _ => no_read(),
        }
    }
}
