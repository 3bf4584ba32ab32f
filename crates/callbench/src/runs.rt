// Calls one after another on tables that are the function's own, and are lent for each call: those of one stripe, of a volume of one stripe, and of the
// largest volume. A volume's pick and its other calls stand apart, as those of one stripe do.
ghost use Rattle.std.specs.Prelude.{◌≡◌};

use crate::Run;
use records::{ClientRecord, NodeRecord, Sizes};
use shelf::{pick, step};
use volumeshelf::call;

pub(crate) const VOLUME_NODES: usize = 1024 * Sizes::NODES;

pub(crate) const VOLUME_CLIENTS: usize = 1024 * Sizes::CLIENTS;

pub(crate) fn run(
    first_nodes: [NodeRecord; Sizes::NODES],
    first_clients: [ClientRecord; Sizes::CLIENTS],
    blocks: &mut [u8],
    spare: &mut [u8],
    differences: &mut [u8],
    value: &[u8],
    start: Run,
) -> Run
    ensures { result.left ≡ 0 }
{
    let mut nodes = first_nodes;
    let mut clients = first_clients;
    let mut now = start;
    while now.goes_on() {
        if now.picks() {
            let request = now.pick();
            let answer = pick(
                &mut nodes,
                &mut clients,
                blocks,
                spare,
                differences,
                value,
                request,
            );
            let next = now.after(answer);
            now = next;
        } else {
            let request = now.step();
            let answer = step(
                &mut nodes,
                &mut clients,
                blocks,
                spare,
                differences,
                value,
                request,
            );
            let next = now.after(answer);
            now = next;
        }
    }
    now
}

pub(crate) fn run_one(
    first_nodes: [NodeRecord; Sizes::NODES],
    first_clients: [ClientRecord; Sizes::CLIENTS],
    blocks: &mut [u8],
    spare: &mut [u8],
    differences: &mut [u8],
    value: &[u8],
    start: Run,
) -> Run
    ensures { result.left ≡ 0 }
{
    let mut nodes = first_nodes;
    let mut clients = first_clients;
    let mut now = start;
    while now.goes_on() {
        if now.picks() {
            let request = now.volume_pick();
            let answer = call(
                &mut nodes,
                &mut clients,
                blocks,
                spare,
                differences,
                value,
                request,
            );
            let next = now.after(answer);
            now = next;
        } else {
            let request = now.volume_step();
            let answer = call(
                &mut nodes,
                &mut clients,
                blocks,
                spare,
                differences,
                value,
                request,
            );
            let next = now.after(answer);
            now = next;
        }
    }
    now
}

pub(crate) fn run_all(
    first_nodes: [NodeRecord; VOLUME_NODES],
    first_clients: [ClientRecord; VOLUME_CLIENTS],
    blocks: &mut [u8],
    spare: &mut [u8],
    differences: &mut [u8],
    value: &[u8],
    start: Run,
) -> Run
    ensures { result.left ≡ 0 }
{
    let mut nodes = first_nodes;
    let mut clients = first_clients;
    let mut now = start;
    while now.goes_on() {
        if now.picks() {
            let request = now.volume_pick();
            let answer = call(
                &mut nodes,
                &mut clients,
                blocks,
                spare,
                differences,
                value,
                request,
            );
            let next = now.after(answer);
            now = next;
        } else {
            let request = now.volume_step();
            let answer = call(
                &mut nodes,
                &mut clients,
                blocks,
                spare,
                differences,
                value,
                request,
            );
            let next = now.after(answer);
            now = next;
        }
    }
    now
}
