// What a record's body says of a message.
ghost use Rattle.std.specs.Prelude.{◌≡◌, ◌≤◌, length};
ghost use Rattle.probe_transport.specs.Body.{fields_in, message_in};

use blocks::header::{Address, Fields};
use records::{eight, four};
use transport::Message;

// The fields of the header that a message came with; those that the body does not have are 0.
pub(crate) fn fields(source: u32, body: &[u8]) -> Fields
    requires { 13 ≤ length body.now }
    ensures { result ≡ fields_in source body.now }
{
    Fields {
        source: Address {
            kind: 0,
            ssi: source,
        },
        message: body[0],
        elements: eight(body, 1),
        ..Fields::default()
    }
}

// The elements of a message that is to be built.
pub(crate) fn message(body: &[u8]) -> Message
    requires { 35 ≤ length body.now }
    ensures { result ≡ message_in body.now }
{
    Message {
        kind: body[11],
        addressed: body[2],
        mni: four(body, 3),
        ssi: four(body, 7),
        protocol: body[12],
        request: body[13],
        short: body[14],
        required: body[15],
        storage: body[16],
        status: body[17],
        reference: body[18],
        validity: body[19],
        forward: body[20],
        address: eight(body, 21),
    }
}
