// What the log begins with, and so how it is read: a journal of version 3 has a mark; by the words there is none.
ghost use Rattle.std.specs.Prelude.{◌≡◌, ◌≤◌, IfOk};
ghost use Rattle.recover.specs.Begin.{form_of};

use crate::journal::Log;
use crate::say::Ended;
use crate::words::Asked;
use crate::{files, say};
use recover_messages::mark::{MARK_LEN, Mark};
use recover_messages::message::Why;
use savelog::Form;
use std::io::Read;
use std::rt::Runtime;

// The form of its records.
fn form_of(asked: Asked) -> Form
    ensures { result ≡ form_of asked.old }
{
    if asked.old { Form::Three } else { Form::Four }
}

// How the open log of `len` bytes is read.
pub fn begin(
    rt: &impl Runtime,
    file: &mut impl Read,
    asked: Asked,
    len: usize,
) -> Result<Log, Ended>
    ensures { IfOk result (λ log. (log.before ≤ log.len) × (log.form ≡ form_of asked.old)) }
{
    let mut first = [0u8; MARK_LEN];
    let n = files::part(file, &mut first).map_err(|e| say::failed_call(
        rt,
        e,
        Why::Unread,
        asked.log,
        len,
    ))?;
    if len < n {
        return Err(say::failed(rt, Why::Changed, asked.log, len));
    }
    let mark = Mark::from(first);
    let marked = !asked.old && !asked.bare;
    let why = match mark {
        Mark::Whole if !marked => Why::Marked,
        Mark::Missing if marked => Why::Unmarked,
        Mark::Whole | Mark::Torn | Mark::Missing => {
            return Ok(Log {
                name: asked.log,
                form: form_of(asked),
                before: if marked { n as u16 } else { 0 },
                len,
                torn: marked && mark == Mark::Torn,
            });
        }
    };
    Err(say::failed(rt, why, asked.log, len))
}
