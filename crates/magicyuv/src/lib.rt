// The host's boundary: the product's functions on numbers and slices. A Result cannot cross it, so a Reply of three numbers stands in for
// the answer; each function is proved to reply just the answer's number and place. Crate magicyuv_c exports them as extern "C".
// numbers.rt has what the host lends for a geometry, entry8.rt the frame entry for depth 8, entry16.rt the one for depths 10, 12 and 14.
#![tactic(auto)]

mod entry16;
mod entry8;
mod numbers;

ghost use Rattle.std.specs.Prelude.{◌<◌};
ghost use Rattle.scope.specs.Refusals.{place_of, place_number};
ghost use Rattle.magicyuv.specs.Boundary.{Says, BuiltFor, ReadFor};

pub use entry8::magicyuv_decode8;
pub use entry16::magicyuv_decode16;
use scope::{Answer, Place, Refusal};

// 0 for planes, or the refusal's number; 0 nothing, 1 a slice, 2 a plane; and which one. Numbers, since C takes no enum with a value.
#[repr(C)]
#[derive(Clone, Copy)]
pub struct Reply {
    pub number: u32,
    pub kind: u32,
    pub place: u32,
}

// The reply that says an answer. No impl of From: its `from` may ask nothing of the answer, and a place fits 32 bits only since each
// answer of the product has one below 65,536.
fn reply_of(a: Answer) -> Reply
    requires { place_number (place_of a) < 65536 }
    ensures { Says a result }
{
    let Err(Refusal(number, at)) = a else {
        return Reply {
            number: 0,
            kind: 0,
            place: 0,
        };
    };
    let (kind, place) = match at {
        Place::Nothing => (0, 0),
        Place::Slice(s) => (1, s as u32),
        Place::Plane(p) => (2, p as u32),
    };
    Reply {
        number,
        kind,
        place,
    }
}

// A table built by itself.
pub fn magicyuv_build(lengths: &[u8], workspace: &mut [u32]) -> Reply
    ensures { BuiltFor lengths.now workspace.old result workspace.new }
{
    let built = alone::build(lengths, workspace);
    reply_of(built)
}

// A reading by itself.
pub fn magicyuv_read(
    lengths: &[u8],
    payload: &[u8],
    workspace: &mut [u32],
    samples: &mut [u16],
) -> Reply
    ensures { ReadFor lengths.now payload.now workspace.old samples.old result workspace.new samples.new }
{
    let read = alone::read(lengths, payload, workspace, samples);
    reply_of(read)
}
