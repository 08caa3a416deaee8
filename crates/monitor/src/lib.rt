// How every call ends: what it tells. What the calls mean and what is claimed of them stands in specs/; their code is in the crates
// above.
#![tactic(auto)]

ghost use Rattle.std.specs.Prelude.{◌≡◌, cond, leb, length, IfOk};
ghost use Rattle.wire.specs.Output.{overwrite};
ghost use Rattle.refusal.specs.Refusal.{number};
ghost use Rattle.image.specs.Refusal.{observer_number};
ghost use Rattle.monitor.specs.Calls.{refusal, output_answer, as_answer, as_post_answer};

use refusal::Refusal;

// What a call tells the C interface, and what `CallPromise` and the claims speak of, so its number stays one: the papers' number, 0
// where it is accepted; the length of what it wrote; the turns that met a live task.
#[derive(Clone, Copy)]
pub struct Answer {
    pub number: u8,
    pub length: usize,
    pub busy: u64,
}

// What a post tells: what every call that writes tells, and whether its message was delivered; where it was not, it was dropped.
#[derive(Clone, Copy)]
pub struct PostAnswer {
    pub answer: Answer,
    pub delivered: bool,
}

// What an accepted call tells.
#[derive(Clone, Copy)]
pub struct Written {
    pub length: usize,
    pub busy: u64,
}

// What an accepted post tells.
#[derive(Clone, Copy)]
pub struct Posted {
    pub written: Written,
    pub delivered: bool,
}

// What a refused call tells.
pub fn refused(number: u8) -> Answer
    ensures { result ≡ refusal number }
{
    Answer {
        number,
        length: 0,
        busy: 0,
    }
}

impl From<Result<Written, Refusal>> for Answer {
    ghost from_gives = { λ call answer. answer ≡ as_answer call };

    fn from(call: Result<Written, Refusal>) -> Answer {
        match call {
            Ok(written) => Answer {
                number: 0,
                length: written.length,
                busy: written.busy,
            },
            Err(refusal) => refused(u8::from(refusal)),
        }
    }
}

impl From<Result<Posted, Refusal>> for PostAnswer {
    ghost from_gives = { λ post answer. answer ≡ as_post_answer post };

    fn from(post: Result<Posted, Refusal>) -> PostAnswer {
        match post {
            Ok(posted) => PostAnswer {
                answer: Answer::from(Ok(posted.written)),
                delivered: posted.delivered,
            },
            Err(refusal) => PostAnswer {
                answer: Answer::from(Err(refusal)),
                delivered: false,
            },
        }
    }
}

// The label of an observer.
pub fn check_observer(observer: u32) -> Result<u8, Refusal>
    ensures { (number result ≡ observer_number observer) × IfOk result (λ label. label ≡ observer) }
{
    if observer > 15 {
        Err(Refusal::Observer)
    } else {
        Ok(observer as u8)
    }
}

// Ends a call that has written `size` bytes if the output has room for them, and refuses it where it has not.
pub fn answered(size: usize, busy: u64, room: usize) -> Result<Written, Refusal>
    ensures { as_answer result ≡ output_answer size busy room }
{
    if size <= room {
        Ok(Written { length: size, busy })
    } else {
        Err(Refusal::Output)
    }
}

// Ends a call whose answer is made: writes it if the output has room for it, and refuses the call where it has not.
pub fn write_answer(out: &mut [u8], answer: &[u8]) -> Result<Written, Refusal>
    ensures { (as_answer result ≡ output_answer (length answer.now) 0 (length out.old))
        × (out.new ≡ cond (leb (length answer.now) (length out.old)) (overwrite answer.now out.old) out.old) }
{
    wire::copy(out, answer);
    answered(answer.len(), 0, out.len())
}
