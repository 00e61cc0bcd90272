// The fields of a build's body.
ghost use Rattle.std.specs.Prelude.{◌≡◌, ◌≤◌, length};
ghost use Rattle.probe_blocks.specs.Body.{sync_in, fields_in};

use blocks::header::{Address, Fields};
use blocks::sync::Sync;
use records::{eight, four};

pub(crate) fn sync(body: &[u8]) -> Sync
    requires { 35 ≤ length body.now }
    ensures { result ≡ sync_in body.now }
{
    Sync {
        system: body[0],
        usage: body[1],
        slot: body[2],
        frame: body[3],
    }
}

pub(crate) fn fields(body: &[u8]) -> Fields
    requires { 35 ≤ length body.now }
    ensures { result ≡ fields_in body.now }
{
    let destination = Address {
        kind: body[5],
        ssi: four(body, 6),
    };
    let source = Address {
        kind: body[10],
        ssi: four(body, 11),
    };
    Fields {
        destination,
        source,
        mni: four(body, 15),
        message: body[19],
        width: body[20],
        elements: eight(body, 21),
    }
}
