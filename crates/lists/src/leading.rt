// The leader's commit step.
//     in:  call log settled pending term incoming outgoing rows answer        out:  result log answer
use crate::line::{Fields, STATE};
use crate::text::{write_result, write_words};
use exports::leading::leader_maybe_commit;
use std::io;
use std::io::Write;

pub fn replay<W: Write>(out: &mut W, line: &[u64]) -> io::Result<()> {
    let mut log = [0u64; STATE];
    let mut answer = [0u64; STATE];
    let mut fields = Fields::of(line);
    // The call's number: there is one such call.
    fields.number();
    let log = fields.copied(&mut log);
    let settled = fields.slice();
    let pending = fields.slice();
    let term = fields.number();
    let incoming = fields.slice();
    let outgoing = fields.slice();
    let rows = fields.slice();
    let answer = fields.copied(&mut answer);
    let result = leader_maybe_commit(
        log, settled, pending, term, incoming, outgoing, rows, answer,
    );
    write_result(out, result)?;
    write_words(out, log)?;
    write_words(out, answer)
}
